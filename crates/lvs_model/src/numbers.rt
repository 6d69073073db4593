//! The numbers of buckets and workers.
ghost use Rattle.std.specs.Prelude.{◌≡◌, ◌<◌};
ghost use Rattle.lvs_model.specs.Numbers.{mix as mix_of, bucket_of as bucket_by, worker_of as worker_by};

use lvs_types::Addr;

/// A number in which the bits of a client's protocol number, address and port are mixed.
pub fn mix(proto: u8, client: Addr, port: u16) -> u32
    ensures { result ≡ mix_of proto client port }
{
    let sum = client
        .number
        .wrapping_add(40503 * u32::from(port))
        .wrapping_add(u32::from(proto));
    sum.wrapping_mul(2654435761)
}

/// The bucket of a client's connections, below `buckets`.
pub fn bucket_of(proto: u8, client: Addr, port: u16, buckets: u32) -> u32
    requires { 0 < buckets }
    ensures { result ≡ bucket_by proto client port buckets }
{
    (mix(proto, client, port) >> 24) % buckets
}

/// The worker of a client's packets, below `workers`.
pub fn worker_of(proto: u8, client: Addr, port: u16, workers: u32) -> u32
    requires { 0 < workers }
    ensures { result ≡ worker_by proto client port workers }
{
    ((mix(proto, client, port) >> 16) % 256) % workers
}
