//! Worked examples: states.
ghost use Rattle.std.specs.Prelude.{◌≡◌, ℕ, true, false, Some, None};
ghost use Rattle.lvs_types.specs.declared.entry.TcpState.TheVariants as state;
ghost use Rattle.lvs_types.specs.declared.entry.Direction.TheVariants as direction;
ghost use Rattle.lvs_types.specs.declared.head.Head.{Head};
ghost use Rattle.lvs_types.specs.Settings.{default_settings};
ghost use Rattle.lvs_model.specs.TcpStates.{next_state};
ghost use Rattle.lvs_model.specs.Timeouts.{timeout_of, is_active};

/// A SYN opens a connection, and the client's ACK establishes it.
pub fn handshake()
    ensures opened { (head : Head) → head.rst ≡ false → head.syn ≡ true → next_state state.None0 direction.Input head ≡ state.SynRecv }
{}

/// The timeouts at the start, in seconds.
pub fn default_timeouts()
    ensures none { timeout_of default_settings (Some state.None0) ≡ 2 }
    ensures established { timeout_of default_settings (Some state.Established) ≡ 900 }
    ensures fin_wait { timeout_of default_settings (Some state.FinWait) ≡ 120 }
    ensures close { timeout_of default_settings (Some state.Close) ≡ 10 }
    ensures udp { timeout_of default_settings None ≡ 300 }
{}

/// What counts as active.
pub fn counted()
    ensures established { is_active (Some state.Established) ≡ true }
    ensures fin_wait { is_active (Some state.FinWait) ≡ false }
    ensures udp { is_active None ≡ false }
{}
