//! Worked examples of the definitions, which the prover evaluates.
ghost use Rattle.std.specs.Prelude.{◌≡◌};
ghost use Rattle.lvs_types.specs.declared.service.Proto.TheVariants.{Tcp};
ghost use Rattle.lvs_entries.specs.Chains.{chain_of};

/// The connections of 172.16.0.9 from its ports 40000 and 40001 stand in the chains 39 and 138.
pub fn chains_of_two_ports()
    ensures first { chain_of Tcp (record { number = 0xAC10_0009 }) 40000 ≡ 39 }
    ensures second { chain_of Tcp (record { number = 0xAC10_0009 }) 40001 ≡ 138 }
{}
