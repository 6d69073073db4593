//! Worked examples: numbers.
ghost use Rattle.std.specs.Prelude.{◌≡◌};
ghost use Rattle.lvs_model.specs.Numbers.{mix, bucket_of, worker_of};

/// TCP from 172.16.0.9, port 40000.
pub fn first_client()
    ensures mixed { mix 6 (record { number = 0xAC10_0009 }) 40000 ≡ 1916872479 }
    ensures bucket { bucket_of 6 (record { number = 0xAC10_0009 }) 40000 16 ≡ 2 }
    ensures worker { worker_of 6 (record { number = 0xAC10_0009 }) 40000 4 ≡ 1 }
{}

/// TCP from 172.16.0.9, port 40001.
pub fn second_client()
    ensures mixed { mix 6 (record { number = 0xAC10_0009 }) 40001 ≡ 2907146790 }
    ensures bucket { bucket_of 6 (record { number = 0xAC10_0009 }) 40001 16 ≡ 13 }
    ensures worker { worker_of 6 (record { number = 0xAC10_0009 }) 40001 4 ≡ 3 }
{}
