//! Worked examples: capture files, what a capture adds to a script, and the frames of books.
ghost use Rattle.std.specs.Prelude.{◌≡◌, [], ◌∷◌, ◌++◌, take, drop, replicate, None, Some, Ok, Err};
ghost use Rattle.lvs_types.specs.declared.capture.CaptureCause.TheVariants.{Short, Magic, Version, Link, RecordShort, TooManyRounds, TooManyItems};
ghost use Rattle.lvs_types.specs.declared.item.Item.TheVariants as item;
ghost use Rattle.lvs_types.specs.declared.reply.DropCause.TheVariants as drops;
ghost use Rattle.lvs_types.specs.declared.reply.Reply.TheVariants as reply;
ghost use Rattle.lvs_types.specs.declared.script.ScriptLine.TheVariants as line;
ghost use Rattle.lvs_types.specs.declared.service.Method.TheVariants.{Direct};
ghost use Rattle.lvs_model.specs.CaptureFiles.{capture_of, capture_bytes, ip_of, refused_at};
ghost use Rattle.lvs_model.specs.Captured.{captured, cause_behind, first_refusal, moment_after, sent_capture, sent_frames};

use lvs_types::{Addr, Frame};

/// The header of a little endian file of raw IP.
const RAW: [u8; 24] = [
    0xd4, 0xc3, 0xb2, 0xa1, 0x02, 0x00, 0x04, 0x00, 0x00, 0x00, 0x00, 0x00, 0x00, 0x00, 0x00, 0x00,
    0x00, 0x00, 0x04, 0x00, 0x65, 0x00, 0x00, 0x00,
];

/// The header of a record of 40 bytes at second 5.
const AT_5: [u8; 16] = [
    0x05, 0x00, 0x00, 0x00, 0x00, 0x00, 0x00, 0x00, 0x28, 0x00, 0x00, 0x00, 0x28, 0x00, 0x00, 0x00,
];

/// A SYN from 172.16.0.9, port 40000, to 10.0.0.1, port 80.
const SYN_40000: [u8; 40] = [
    0x45, 0x00, 0x00, 0x28, 0x00, 0x01, 0x40, 0x00, 0x40, 0x06, 0x84, 0xb5, 0xac, 0x10, 0x00, 0x09,
    0x0a, 0x00, 0x00, 0x01, 0x9c, 0x40, 0x00, 0x50, 0x00, 0x00, 0x00, 0x00, 0x00, 0x00, 0x00, 0x00,
    0x50, 0x02, 0x20, 0x00, 0x3d, 0x38, 0x00, 0x00,
];

/// The same from port 40001.
const SYN_40001: [u8; 40] = [
    0x45, 0x00, 0x00, 0x28, 0x00, 0x01, 0x40, 0x00, 0x40, 0x06, 0x84, 0xb5, 0xac, 0x10, 0x00, 0x09,
    0x0a, 0x00, 0x00, 0x01, 0x9c, 0x41, 0x00, 0x50, 0x00, 0x00, 0x00, 0x00, 0x00, 0x00, 0x00, 0x00,
    0x50, 0x02, 0x20, 0x00, 0x3d, 0x37, 0x00, 0x00,
];

/// The same from port 40002.
const SYN_40002: [u8; 40] = [
    0x45, 0x00, 0x00, 0x28, 0x00, 0x01, 0x40, 0x00, 0x40, 0x06, 0x84, 0xb5, 0xac, 0x10, 0x00, 0x09,
    0x0a, 0x00, 0x00, 0x01, 0x9c, 0x42, 0x00, 0x50, 0x00, 0x00, 0x00, 0x00, 0x00, 0x00, 0x00, 0x00,
    0x50, 0x02, 0x20, 0x00, 0x3d, 0x36, 0x00, 0x00,
];

/// A SYN ACK from 192.168.0.1, port 8080, to 172.16.0.9, port 40000.
const ANSWER: [u8; 40] = [
    0x45, 0x00, 0x00, 0x28, 0x00, 0x01, 0x40, 0x00, 0x40, 0x06, 0xce, 0x0c, 0xc0, 0xa8, 0x00, 0x01,
    0xac, 0x10, 0x00, 0x09, 0x1f, 0x90, 0x9c, 0x40, 0x00, 0x00, 0x00, 0x00, 0x00, 0x00, 0x00, 0x00,
    0x50, 0x12, 0x20, 0x00, 0x67, 0x3f, 0x00, 0x00,
];

/// The header of a big endian file of Ethernet, with a zone, an accuracy and a greatest length.
const ETHERNET: [u8; 24] = [
    0xa1, 0xb2, 0xc3, 0xd4, 0x00, 0x02, 0x00, 0x04, 0x00, 0x00, 0x0e, 0x10, 0x00, 0x00, 0x00, 0x01,
    0x00, 0x00, 0x00, 0x60, 0x00, 0x00, 0x00, 0x01,
];

/// The header of a record of 15 captured bytes of 60, 258 microseconds after second 65,536.
const CUT_TO_15: [u8; 16] = [
    0x00, 0x01, 0x00, 0x00, 0x00, 0x00, 0x01, 0x02, 0x00, 0x00, 0x00, 0x0f, 0x00, 0x00, 0x00, 0x3c,
];

/// The header of an Ethernet frame of IPv4, and one byte.
const IPV4: [u8; 15] = [
    0x02, 0x00, 0x00, 0x00, 0x00, 0x01, 0x02, 0x00, 0x00, 0x00, 0x00, 0x02, 0x08, 0x00, 0x45,
];

/// The same of IPv6.
const IPV6: [u8; 15] = [
    0x02, 0x00, 0x00, 0x00, 0x00, 0x01, 0x02, 0x00, 0x00, 0x00, 0x00, 0x02, 0x86, 0xdd, 0x60,
];

/// 192.168.0.0, the network of the servers.
const SERVERS: Addr = Addr {
    number: 0xc0a8_0000,
};

const LOCAL: Addr = Addr { number: 0 };

/// A capture of three SYNs.
pub fn three_syns_are_read()
    ensures whole { capture_of (RAW ++ AT_5 ++ SYN_40000 ++ AT_5 ++ SYN_40001 ++ AT_5 ++ SYN_40002) ≡ Ok (record { link = 101; frames = record { seconds = 5; micros = 0; whole = 40; bytes = SYN_40000 } ∷ record { seconds = 5; micros = 0; whole = 40; bytes = SYN_40001 } ∷ record { seconds = 5; micros = 0; whole = 40; bytes = SYN_40002 } ∷ [] }) }
    ensures cut { capture_of (take 191 (RAW ++ AT_5 ++ SYN_40000 ++ AT_5 ++ SYN_40001 ++ AT_5 ++ SYN_40002)) ≡ refused_at 3 RecordShort }
    ensures none { capture_of RAW ≡ Ok (record { link = 101; frames = [] }) }
{}

/// A big endian capture of Ethernet frames that were cut; the padding of the header says nothing.
pub fn big_endian_is_read()
    ensures { capture_of (ETHERNET ++ CUT_TO_15 ++ IPV4) ≡ Ok (record { link = 1; frames = record { seconds = 65536; micros = 258; whole = 60; bytes = IPV4 } ∷ [] }) }
{}

/// What is no capture, with the first cause.
pub fn refused_captures()
    ensures nothing { capture_of [] ≡ refused_at 0 Short }
    ensures short { capture_of (take 23 RAW) ≡ refused_at 0 Short }
    ensures nanoseconds { capture_of (0x4d ∷ 0x3c ∷ 0xb2 ∷ 0xa1 ∷ drop 4 RAW) ≡ refused_at 0 Magic }
    ensures version { capture_of (take 4 RAW ++ 2 ∷ 0 ∷ 3 ∷ 0 ∷ drop 8 RAW) ≡ refused_at 0 Version }
    ensures link { capture_of (take 20 RAW ++ 113 ∷ 0 ∷ 0 ∷ 0 ∷ []) ≡ refused_at 0 Link }
    ensures first_record { capture_of (ETHERNET ++ take 15 CUT_TO_15) ≡ refused_at 1 RecordShort }
    ensures first_frame { capture_of (ETHERNET ++ CUT_TO_15 ++ take 14 IPV4) ≡ refused_at 1 RecordShort }
    ensures second_record { capture_of (ETHERNET ++ CUT_TO_15 ++ IPV4 ++ 0 ∷ []) ≡ refused_at 2 RecordShort }
{}

/// The packets of frames.
pub fn packets_of_frames()
    ensures raw { ip_of 101 (record { seconds = 0; micros = 0; whole = 15; bytes = IPV6 }) ≡ Some IPV6 }
    ensures ethernet { ip_of 1 (record { seconds = 0; micros = 0; whole = 15; bytes = IPV4 }) ≡ Some (0x45 ∷ []) }
    ensures another_type { ip_of 1 (record { seconds = 0; micros = 0; whole = 15; bytes = IPV6 }) ≡ None }
    ensures header_alone { ip_of 1 (record { seconds = 0; micros = 0; whole = 14; bytes = take 14 IPV4 }) ≡ Some [] }
    ensures short { ip_of 1 (record { seconds = 0; micros = 0; whole = 13; bytes = take 13 IPV4 }) ≡ None }
    ensures another_link { ip_of 113 (record { seconds = 0; micros = 0; whole = 15; bytes = IPV4 }) ≡ None }
{}

/// Packets stand in rounds of a minute; a packet of an earlier moment stays in the round that is open.
pub fn rounds_of_a_capture()
    ensures rounded { moment_after 60 0 119 ≡ 60 }
    ensures kept { moment_after 60 120 119 ≡ 120 }
    ensures rounds { captured SERVERS 16 60 (record { local = LOCAL; rounds = record { moment = 60; lines = [] } ∷ [] }) (record { link = 101; frames = record { seconds = 5; micros = 0; whole = 40; bytes = SYN_40000 } ∷ record { seconds = 119; micros = 0; whole = 40; bytes = ANSWER } ∷ record { seconds = 120; micros = 0; whole = 40; bytes = SYN_40001 } ∷ record { seconds = 7; micros = 0; whole = 40; bytes = SYN_40002 } ∷ [] }) ≡ Ok (record { local = LOCAL; rounds = record { moment = 60; lines = [] } ∷ record { moment = 60; lines = line.Incoming 0 SYN_40000 ∷ line.Outgoing ANSWER ∷ [] } ∷ record { moment = 120; lines = line.Incoming 0 SYN_40001 ∷ line.Incoming 0 SYN_40002 ∷ [] } ∷ [] }) }
    ensures first { captured SERVERS 16 1 (record { local = LOCAL; rounds = [] }) (record { link = 101; frames = record { seconds = 5; micros = 0; whole = 40; bytes = SYN_40000 } ∷ [] }) ≡ Ok (record { local = LOCAL; rounds = record { moment = 5; lines = line.Incoming 0 SYN_40000 ∷ [] } ∷ [] }) }
    ensures all_bits { captured SERVERS 32 1 (record { local = LOCAL; rounds = [] }) (record { link = 101; frames = record { seconds = 5; micros = 0; whole = 40; bytes = ANSWER } ∷ [] }) ≡ Ok (record { local = LOCAL; rounds = record { moment = 5; lines = line.Incoming 0 ANSWER ∷ [] } ∷ [] }) }
    ensures no_bits { captured SERVERS 0 1 (record { local = LOCAL; rounds = [] }) (record { link = 101; frames = record { seconds = 5; micros = 0; whole = 40; bytes = SYN_40000 } ∷ record { seconds = 5; micros = 0; whole = 19; bytes = take 19 SYN_40001 } ∷ [] }) ≡ Ok (record { local = LOCAL; rounds = record { moment = 5; lines = line.Outgoing SYN_40000 ∷ line.Incoming 0 (take 19 SYN_40001) ∷ [] } ∷ [] }) }
{}

/// A frame without IPv4 makes no line, but its record counts.
pub fn frames_without_ipv4()
    ensures skipped { captured SERVERS 16 1 (record { local = LOCAL; rounds = [] }) (record { link = 1; frames = record { seconds = 5; micros = 0; whole = 15; bytes = IPV6 } ∷ record { seconds = 7; micros = 0; whole = 15; bytes = IPV4 } ∷ [] }) ≡ Ok (record { local = LOCAL; rounds = record { moment = 7; lines = line.Incoming 0 (0x45 ∷ []) ∷ [] } ∷ [] }) }
    ensures counted { captured SERVERS 16 1 (record { local = LOCAL; rounds = replicate 4096 (record { moment = 0; lines = [] }) }) (record { link = 1; frames = record { seconds = 5; micros = 0; whole = 15; bytes = IPV6 } ∷ record { seconds = 7; micros = 0; whole = 15; bytes = IPV4 } ∷ [] }) ≡ Err (record { at = 2; cause = TooManyRounds }) }
{}

/// The limits of a captured script.
pub fn limits_of_a_captured_script()
    ensures last_round { first_refusal SERVERS 16 4095 0 [] (record { at = 1; moment = 5; bytes = SYN_40000 } ∷ record { at = 2; moment = 5; bytes = SYN_40001 } ∷ []) ≡ None }
    ensures a_round_more { first_refusal SERVERS 16 4095 0 [] (record { at = 1; moment = 5; bytes = SYN_40000 } ∷ record { at = 4; moment = 6; bytes = SYN_40001 } ∷ []) ≡ Some (record { at = 4; cause = TooManyRounds }) }
    ensures last_item { first_refusal SERVERS 16 1 1048574 [] (record { at = 1; moment = 5; bytes = SYN_40000 } ∷ record { at = 2; moment = 5; bytes = SYN_40001 } ∷ []) ≡ None }
    ensures an_item_more { first_refusal SERVERS 16 1 1048575 [] (record { at = 1; moment = 5; bytes = SYN_40000 } ∷ record { at = 2; moment = 5; bytes = SYN_40001 } ∷ []) ≡ Some (record { at = 2; cause = TooManyItems }) }
    ensures both { first_refusal SERVERS 16 4096 1048576 [] (record { at = 1; moment = 5; bytes = SYN_40000 } ∷ []) ≡ Some (record { at = 1; cause = TooManyRounds }) }
    ensures the_earlier { first_refusal SERVERS 16 4095 1048576 [] (record { at = 1; moment = 5; bytes = SYN_40000 } ∷ record { at = 2; moment = 6; bytes = SYN_40001 } ∷ []) ≡ Some (record { at = 1; cause = TooManyItems }) }
{}

/// The file of what was sent: one frame for each packet that went on, at its round's moment.
pub fn three_syns_are_sent()
    ensures file { capture_bytes (record { seconds = 5; micros = 0; whole = 40; bytes = SYN_40000 } ∷ record { seconds = 5; micros = 0; whole = 40; bytes = SYN_40001 } ∷ record { seconds = 5; micros = 0; whole = 40; bytes = SYN_40002 } ∷ []) ≡ RAW ++ AT_5 ++ SYN_40000 ++ AT_5 ++ SYN_40001 ++ AT_5 ++ SYN_40002 }
    ensures frames { sent_frames (record { number = 0; moment = 0; workers = 1; buckets = 1; acts = record { actor = 0; number = 0; item = item.Sweep 0; reply = reply.Swept 0 } ∷ []; shown = [] } ∷ record { number = 1; moment = 5; workers = 1; buckets = 1; acts = record { actor = 3; number = 0; item = item.Incoming 0 SYN_40000; reply = reply.Forward Direct SERVERS SYN_40000 } ∷ record { actor = 3; number = 1; item = item.Incoming 0 SYN_40001; reply = reply.Drop drops.NoDest } ∷ record { actor = 3; number = 2; item = item.Outgoing ANSWER; reply = reply.Outward ANSWER } ∷ []; shown = [] } ∷ []) ≡ record { seconds = 5; micros = 0; whole = 40; bytes = SYN_40000 } ∷ record { seconds = 5; micros = 0; whole = 40; bytes = ANSWER } ∷ [] }
    ensures nothing { sent_capture [] ≡ RAW }
{}
