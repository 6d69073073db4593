//! The state of a TCP connection after a packet (RFC 9293, section 3.3.2).
ghost use Rattle.std.specs.Prelude.{◌≡◌};
ghost use Rattle.lvs_model.specs.TcpStates.{next_state as next_state_of, row as row_of};
ghost use Rattle.lvs_states.specs.Flags.{flag_named};

use crate::flag::{Flag, first_flag};
use crate::tables::{INPUT, INPUT_ONLY, OUTPUT};
use lvs_types::{Direction, Head, TcpState};

/// The state after a packet of a connection in the state `old`: that of the table of its
/// direction, in the row of its first flag of rst, syn, fin and ack; without any it is Close.
pub fn next_state(old: TcpState, direction: Direction, head: &Head) -> TcpState
    ensures { result ≡ next_state_of old direction head.now }
{
    match first_flag(head) {
        Some(flag) => row(direction, flag)[old as usize],
        None => TcpState::Close,
    }
}

/// The new states, by old state.
fn row(direction: Direction, flag: Flag) -> &'static [TcpState; 11]
    ensures { result.now ≡ row_of direction (flag_named flag) }
{
    let table = match direction {
        Direction::Input => &INPUT,
        Direction::Output => &OUTPUT,
        Direction::InputOnly => &INPUT_ONLY,
    };
    &table[flag as usize]
}
