//! Worked examples of words: numbers, addresses, masks, ipvsadm(8) lines and sysctls.
ghost use Rattle.std.specs.Prelude.{◌≡◌, ℕ, List, [], ◌∷◌, Some, None, Ok, Err, true, false, codes};
ghost use Rattle.lvs_types.specs.declared.script.WordsCause.TheVariants as cause;
ghost use Rattle.lvs_types.specs.declared.script.SettingCause.TheVariants as refusal;
ghost use Rattle.lvs_types.specs.declared.settings.Setting.TheVariants as setting;
ghost use Rattle.lvs_types.specs.declared.service.Proto.TheVariants as proto;
ghost use Rattle.lvs_types.specs.declared.service.Method.TheVariants as method;
ghost use Rattle.lvs_types.specs.declared.service.Scheduler.TheVariants as scheduler;
ghost use Rattle.lvs_types.specs.declared.service.ServiceKey.TheVariants as key;
ghost use Rattle.lvs_types.specs.declared.command.Command.TheVariants as command;
ghost use Rattle.lvs_types.specs.declared.command.Line.TheVariants as line;
ghost use Rattle.lvs_types.specs.declared.book.Shown.TheVariants as shown;
ghost use Rattle.lvs_model.specs.Decimals.{number_of, number_between, addr_of, endpoint_of, mask_of};
ghost use Rattle.lvs_model.specs.Refusals.{refused};
ghost use Rattle.lvs_model.specs.AdminWords.{split_words};
ghost use Rattle.lvs_model.specs.AdminLines.{line_of_words};
ghost use Rattle.lvs_model.specs.SysctlWords.{setting_of_words};

/// Numbers of so many digits, up to a limit.
pub fn numbers()
    ensures plain { number_of 5 65535 (codes "80") ≡ Some 80 }
    ensures leading_zeros { number_of 5 65535 (codes "00080") ≡ Some 80 }
    ensures too_many_digits { number_of 5 65535 (codes "000080") ≡ None }
    ensures too_great { number_of 5 65535 (codes "65536") ≡ None }
    ensures empty { number_of 5 65535 [] ≡ None }
    ensures signed { number_of 5 65535 (codes "+80") ≡ None }
    ensures too_small { number_between 1 10 (codes "0") ≡ None }
{}

/// Addresses, with and without a port.
pub fn addresses()
    ensures plain { addr_of (codes "10.0.0.1") ≡ Some (record { number = 167772161 }) }
    ensures leading_zeros { addr_of (codes "01.2.3.4") ≡ Some (record { number = 16909060 }) }
    ensures too_great { addr_of (codes "256.0.0.0") ≡ None }
    ensures three_numbers { addr_of (codes "1.2.3") ≡ None }
    ensures five_numbers { addr_of (codes "1.2.3.4.5") ≡ None }
    ensures with_port { endpoint_of (codes "1.2.3.4:80") ≡ Some (record { addr = record { number = 16909060 }; port = Some 80 }) }
    ensures without_port { endpoint_of (codes "1.2.3.4") ≡ Some (record { addr = record { number = 16909060 }; port = None }) }
    ensures port_missing { endpoint_of (codes "1.2.3.4:") ≡ None }
{}

/// Masks of ones and then zeros.
pub fn masks()
    ensures all { mask_of (codes "255.255.255.255") ≡ Some 32 }
    ensures some { mask_of (codes "255.255.252.0") ≡ Some 22 }
    ensures none { mask_of (codes "0.0.0.0") ≡ Some 0 }
    ensures hole { mask_of (codes "255.0.255.0") ≡ None }
{}

/// Words before and after the splitting.
pub fn splitting()
    ensures letters { split_words (codes "-Ln" ∷ []) ≡ codes "-L" ∷ codes "-n" ∷ [] }
    ensures value { split_words (codes "--scheduler=a=b" ∷ []) ≡ codes "--scheduler" ∷ codes "a=b" ∷ [] }
    ensures once { split_words (codes "--scheduler=-rr" ∷ []) ≡ codes "--scheduler" ∷ codes "-rr" ∷ [] }
    ensures empty { split_words (codes "--persistent=" ∷ []) ≡ codes "--persistent" ∷ [] ∷ [] }
    ensures digits { split_words (codes "-w5" ∷ []) ≡ codes "-w5" ∷ [] }
{}

/// Lines that are read.
pub fn lines()
    ensures service { line_of_words (codes "-A" ∷ codes "-t" ∷ codes "10.0.0.1:80" ∷ []) ≡ Ok (line.Edit (command.AddService (record {
      key = key.Net proto.Tcp (record { number = 167772161 }) 80;
      scheduler = scheduler.Wlc;
      persist = None;
      mask_bits = 32;
      one_packet = false;
      cursor = record { last = None; cw = 0 };
    }))) }
    ensures persistence { line_of_words (codes "-E" ∷ codes "-pf" ∷ codes "7" ∷ codes "-s" ∷ codes "sh" ∷ []) ≡ Ok (line.Edit (command.EditService (record {
      key = key.Mark 7;
      scheduler = scheduler.Sh;
      persist = Some 300;
      mask_bits = 32;
      one_packet = false;
      cursor = record { last = None; cw = 0 };
    }))) }
    ensures server { line_of_words (codes "-a" ∷ codes "-t" ∷ codes "10.0.0.1:80" ∷ codes "-r" ∷ codes "10.0.0.1:8080" ∷ []) ≡ Ok (line.Edit (command.AddServer (key.Net proto.Tcp (record { number = 167772161 }) 80) (record {
      addr = record { number = 167772161 };
      port = 80;
      method = method.Direct;
      weight = 1;
      upper = 0;
      lower = 0;
    }))) }
    ensures timeouts { line_of_words (codes "--set" ∷ codes "0" ∷ codes "120" ∷ codes "300" ∷ []) ≡ Ok (line.Edit (command.Timeouts 0 120 300)) }
    ensures daemon { line_of_words (codes "--start-daemon" ∷ codes "backup" ∷ codes "--syncid" ∷ codes "7" ∷ []) ≡ Ok (line.Edit (command.StartBackup 7)) }
    ensures listing { line_of_words (codes "-Lnc" ∷ []) ≡ Ok (line.Show shown.Conns) }
{}

/// Lines that are refused, with the first refused word.
pub fn refusals()
    ensures nothing { line_of_words [] ≡ refused 0 cause.Missing }
    ensures no_command { line_of_words (codes "-t" ∷ []) ≡ refused 0 cause.UnknownOption }
    ensures extra { line_of_words (codes "-C" ∷ codes "x" ∷ []) ≡ refused 1 cause.Extra }
    ensures repeated { line_of_words (codes "-A" ∷ codes "-f" ∷ codes "1" ∷ codes "-f" ∷ []) ≡ refused 3 cause.Repeated }
    ensures conflict { line_of_words (codes "-A" ∷ codes "-f" ∷ codes "1" ∷ codes "-t" ∷ []) ≡ refused 3 cause.Conflict }
    ensures missing { line_of_words (codes "-a" ∷ codes "-f" ∷ codes "1" ∷ []) ≡ refused 3 cause.Missing }
    ensures zero_port { line_of_words (codes "-A" ∷ codes "-t" ∷ codes "10.0.0.1" ∷ []) ≡ refused 2 cause.ZeroPort }
    ensures mask { line_of_words (codes "-A" ∷ codes "-f" ∷ codes "1" ∷ codes "-M" ∷ codes "255.0.0.0" ∷ []) ≡ refused 3 cause.Conflict }
    ensures one_packet { line_of_words (codes "-A" ∷ codes "-t" ∷ codes "10.0.0.1:80" ∷ codes "-o" ∷ []) ≡ refused 3 cause.Conflict }
    ensures weight { line_of_words (codes "-a" ∷ codes "-w" ∷ codes "2147483648" ∷ []) ≡ refused 2 cause.BadNumber }
{}

/// Sysctls.
pub fn settings()
    ensures plain { setting_of_words (codes "sloppy_tcp" ∷ codes "1" ∷ []) ≡ Ok (setting.SloppyTcp 1) }
    ensures prefixed { setting_of_words (codes "net.ipv4.vs.sync_threshold" ∷ codes "3" ∷ codes "50" ∷ []) ≡ Ok (setting.SyncThreshold 3 50) }
    ensures unknown { setting_of_words (codes "drop_entry" ∷ codes "1" ∷ []) ≡ Err refusal.UnknownName }
    ensures too_great { setting_of_words (codes "sync_version" ∷ codes "2" ∷ []) ≡ Err refusal.BadValue }
    ensures period_too_small { setting_of_words (codes "sync_threshold" ∷ codes "3" ∷ codes "3" ∷ []) ≡ Err refusal.BadValue }
    ensures no_value { setting_of_words (codes "sloppy_tcp" ∷ []) ≡ Err refusal.BadValue }
{}
