//! Worked examples of the definitions, and that each name and number leads back to what has it.
ghost use Rattle.std.specs.Prelude.{◌≡◌, true, false, Some, None, codes};
ghost use Rattle.lvs_types.specs.declared.service.Proto.{Proto};
ghost use Rattle.lvs_types.specs.declared.service.Proto.TheVariants as proto;
ghost use Rattle.lvs_types.specs.declared.service.Method.{Method};
ghost use Rattle.lvs_types.specs.declared.service.Method.TheVariants as method;
ghost use Rattle.lvs_types.specs.declared.service.Scheduler.{Scheduler};
ghost use Rattle.lvs_types.specs.declared.service.Scheduler.TheVariants as scheduler;
ghost use Rattle.lvs_types.specs.declared.entry.TcpState.{TcpState};
ghost use Rattle.lvs_types.specs.declared.entry.TcpState.TheVariants as state;
ghost use Rattle.lvs_types.specs.declared.head.Head.{Head};
ghost use Rattle.lvs_types.specs.declared.dest.DestSpec.{DestSpec};
ghost use Rattle.lvs_types.specs.Protocols.{proto_code, proto_of_code};
ghost use Rattle.lvs_types.specs.Methods.{method_code, method_of_code};
ghost use Rattle.lvs_types.specs.StateNumbers.{state_number, state_of_number};
ghost use Rattle.lvs_types.specs.Schedulers.{scheduler_name, scheduler_named};
ghost use Rattle.lvs_types.specs.Transport.{transport_of};
ghost use Rattle.lvs_types.specs.Thresholds.{has_bad_thresholds};

/// TCP is 6 and UDP 17; ICMP, which is 1, is no transport protocol here.
pub fn protocols()
    ensures tcp { proto_code proto.Tcp ≡ 6 }
    ensures udp { proto_code proto.Udp ≡ 17 }
    ensures icmp { proto_of_code 1 ≡ None }
    ensures back { (p : Proto) → proto_of_code (proto_code p) ≡ Some p }
{}

/// Direct routing is 3; 1, which is a node's own delivery in Linux, is no method here.
pub fn methods()
    ensures direct { method_code method.Direct ≡ 3 }
    ensures own { method_of_code 1 ≡ None }
    ensures back { (m : Method) → method_of_code (method_code m) ≡ Some m }
{}

/// The last number is 10.
pub fn state_numbers()
    ensures established { state_number state.Established ≡ 1 }
    ensures last { state_number state.SynAck ≡ 10 }
    ensures beyond { state_of_number 11 ≡ None }
    ensures back { (s : TcpState) → state_of_number (state_number s) ≡ Some s }
{}

/// Names are in lower-case letters.
pub fn schedulers()
    ensures least { scheduler_name scheduler.Wlc ≡ codes "wlc" }
    ensures upper { scheduler_named (codes "WLC") ≡ None }
    ensures longer { scheduler_named (codes "wlcx") ≡ None }
    ensures back { (s : Scheduler) → scheduler_named (scheduler_name s) ≡ Some s }
{}

/// A packet of protocol 17 is UDP, a fragment of one isn't.
pub fn transports()
    ensures whole { (head : Head) → transport_of (record head { fragment = false; code = 17 }) ≡ Some proto.Udp }
    ensures fragment { (head : Head) → transport_of (record head { fragment = true; code = 17 }) ≡ None }
{}

/// Equal thresholds are good ones.
pub fn thresholds()
    ensures equal { (spec : DestSpec) → has_bad_thresholds (record spec { upper = 10; lower = 10 }) ≡ false }
    ensures crossed { (spec : DestSpec) → has_bad_thresholds (record spec { upper = 10; lower = 11 }) ≡ true }
{}
