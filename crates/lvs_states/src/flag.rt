//! The flag of a packet that chooses a row of the state tables.
ghost use Rattle.std.specs.Prelude.{◌≡◌, option_map};
ghost use Rattle.lvs_model.specs.TcpStates.{first_flag as first_flag_of};
ghost use Rattle.lvs_states.specs.Flags.{flag_named};

use lvs_types::Head;

/// In the order of a table's rows.
#[derive(Clone, Copy)]
pub(crate) enum Flag {
    Syn,
    Fin,
    Ack,
    Rst,
}

/// The first flag that is set, in the order rst, syn, fin, ack.
pub(crate) fn first_flag(head: &Head) -> Option<Flag>
    ensures { option_map flag_named result ≡ first_flag_of head.now }
{
    if head.rst {
        Some(Flag::Rst)
    } else if head.syn {
        Some(Flag::Syn)
    } else if head.fin {
        Some(Flag::Fin)
    } else if head.ack {
        Some(Flag::Ack)
    } else {
        None
    }
}
