//! Worked examples: the three listings of a director, and the reading back of saved tables.
ghost use Rattle.std.specs.Prelude.{◌≡◌, List, ℕ, [], ◌∷◌, ◌++◌, Some, None, Ok, Err, true, false, codes};
ghost use Rattle.lvs_types.specs.declared.script.WordsCause.TheVariants as cause;
ghost use Rattle.lvs_types.specs.declared.service.Proto.TheVariants as proto;
ghost use Rattle.lvs_types.specs.declared.service.Method.TheVariants as method;
ghost use Rattle.lvs_types.specs.declared.service.Scheduler.TheVariants as scheduler;
ghost use Rattle.lvs_types.specs.declared.service.ServiceKey.TheVariants as key;
ghost use Rattle.lvs_types.specs.declared.entry.TcpState.TheVariants as state;
ghost use Rattle.lvs_types.specs.declared.command.Command.TheVariants as command;
ghost use Rattle.lvs_model.specs.Listings.{service_line, server_line, service_words, server_words, entry_lines, template_lines};
ghost use Rattle.lvs_model.specs.Restoring.{restored};

/// The lines of `list`.
pub fn services_and_servers()
    ensures service { service_line (record { key = key.Net proto.Tcp (record { number = 167772161 }) 80; scheduler = scheduler.Wlc; persist = None; mask_bits = 32; one_packet = false; cursor = record { last = None; cw = 0 } }) ≡ codes "TCP 10.0.0.1:80 wlc" ++ 10 ∷ [] }
    ensures flags { service_line (record { key = key.Mark 7; scheduler = scheduler.Sh; persist = Some 300; mask_bits = 24; one_packet = true; cursor = record { last = None; cw = 0 } }) ≡ codes "FWM 7 sh persistent 300 mask 255.255.255.0 ops" ++ 10 ∷ [] }
    ensures server { server_line (record { dest = record { id = record { 0 = 1 }; service = key.Mark 7; spec = record { addr = record { number = 3232235521 }; port = 8080; method = method.Masq; weight = 2; upper = 0; lower = 0 }; overloaded = false; live = true }; active = 1; inactive = 0; templates = 0 }) ≡ codes "  -> 192.168.0.1:8080 Masq 2 1 0" ++ 10 ∷ [] }
{}

/// The lines of `save`.
pub fn saved_lines()
    ensures service { service_words (record { key = key.Net proto.Udp (record { number = 167772161 }) 53; scheduler = scheduler.Rr; persist = Some 300; mask_bits = 0; one_packet = true; cursor = record { last = None; cw = 0 } }) ≡ codes "-A -u 10.0.0.1:53 -s rr -p 300 -M 0.0.0.0 -o" ++ 10 ∷ [] }
    ensures server { server_words (key.Net proto.Tcp (record { number = 167772161 }) 80) (record { addr = record { number = 3232235521 }; port = 8080; method = method.Masq; weight = 2; upper = 0; lower = 3 }) ≡ codes "-a -t 10.0.0.1:80 -r 192.168.0.1:8080 -m -w 2 -y 3" ++ 10 ∷ [] }
{}

/// The lines of `conns`.
pub fn connections()
    ensures entry { entry_lines 100 (record { id = 1; key = record { proto = proto.Tcp; caddr = record { number = 2886729737 }; cport = 40000; vaddr = record { number = 167772161 }; vport = 80 }; server = None; method = method.Masq; daddr = record { number = 3232235521 }; dport = 8080; state = Some state.Established; timeout = 900; deadline = 1000; packets = 2; template = None; mark = 0 } ∷ []) ≡ codes "TCP 900 ESTABLISHED 172.16.0.9:40000 10.0.0.1:80 192.168.0.1:8080" ++ 10 ∷ [] }
    ensures template { template_lines 400 (record { id = record { 0 = 1 }; key = record { code = 17; client = record { number = 2886729737 }; vaddr = record { number = 167772161 }; vport = 53 }; server = None; method = method.Direct; daddr = record { number = 3232235521 }; dport = 53; timeout = 300; deadline = 300 } ∷ []) ≡ codes "TPL 0 UDP 172.16.0.9:0 10.0.0.1:53 192.168.0.1:53" ++ 10 ∷ [] }
{}

/// Saved lines are commands again; comments are skipped, and what isn't an edit is refused.
pub fn reading_back()
    ensures commands { restored (codes "# saved" ++ 10 ∷ codes "-A -f 7 -s rr" ++ 10 ∷ 10 ∷ codes "-a -f 7 -r 192.168.0.1:0 -g -w 1" ++ 10 ∷ []) ≡ Ok (command.AddService (record { key = key.Mark 7; scheduler = scheduler.Rr; persist = None; mask_bits = 32; one_packet = false; cursor = record { last = None; cw = 0 } }) ∷ command.AddServer (key.Mark 7) (record { addr = record { number = 3232235521 }; port = 0; method = method.Direct; weight = 1; upper = 0; lower = 0 }) ∷ []) }
    ensures listing { restored (codes "-C" ++ 10 ∷ codes "-L" ++ 10 ∷ []) ≡ Err (record { line = 2; at = 0; cause = cause.Extra }) }
    ensures unreadable { restored (codes "-C " ++ 0 ∷ 10 ∷ []) ≡ Err (record { line = 1; at = 0; cause = cause.UnknownOption }) }
    ensures refused { restored (codes "-A -f 0") ≡ Err (record { line = 1; at = 2; cause = cause.BadNumber }) }
{}
