//! Worked examples: ICMP errors about a masqueraded connection, byte for byte, and their lines.
ghost use Rattle.std.specs.Prelude.{◌≡◌, [], ◌∷◌, ◌++◌, true, false, Some, None, Ok, Err, codes, take};
ghost use Rattle.lvs_types.specs.declared.book.Shown.TheVariants as shown;
ghost use Rattle.lvs_types.specs.declared.head.Malformed.TheVariants.{HeaderSum, Short};
ghost use Rattle.lvs_types.specs.declared.icmp.IcmpAnswer.TheVariants as answer;
ghost use Rattle.lvs_types.specs.declared.icmp.Side.TheVariants.{Inward, Outward};
ghost use Rattle.lvs_types.specs.declared.report.ReportLine.TheVariants as read;
ghost use Rattle.lvs_types.specs.declared.script.ScriptCause.TheVariants as cause;
ghost use Rattle.lvs_types.specs.declared.script.ScriptLine.TheVariants as line;
ghost use Rattle.lvs_types.specs.declared.service.Method.TheVariants.{Direct};
ghost use Rattle.lvs_model.specs.ErrorExamples.{server, connection, no_tables, tables_of, tables};
ghost use Rattle.lvs_model.specs.ExampleItems.{server_addr};
ghost use Rattle.lvs_model.specs.IcmpErrors.{icmp_answer, icmp_text};
ghost use Rattle.lvs_model.specs.Listings.{text_of};
ghost use Rattle.lvs_model.specs.ReportReading.{report_of};
ghost use Rattle.lvs_model.specs.Rewriting.{with_word};
ghost use Rattle.lvs_model.specs.Scripts.{script_of};

/// From 172.16.0.1, that the host 172.16.0.9 can't be reached (type 3, code 1), about a packet of
/// the connection as the director sent it to the client.
const FROM_CLIENT: [u8; 56] = [
    0x45, 0x00, 0x00, 0x38, 0x00, 0x01, 0x40, 0x00, 0x40, 0x01, 0x84, 0xb2, 0xac, 0x10, 0x00, 0x01,
    0x0a, 0x00, 0x00, 0x01, 0x03, 0x01, 0x60, 0x6e, 0x00, 0x00, 0x00, 0x00, 0x45, 0x00, 0x00, 0x28,
    0x00, 0x01, 0x40, 0x00, 0x40, 0x06, 0x84, 0xb5, 0x0a, 0x00, 0x00, 0x01, 0xac, 0x10, 0x00, 0x09,
    0x00, 0x50, 0x9c, 0x40, 0x00, 0x00, 0x00, 0x00,
];

/// The same about the packet as the server sent it.
const TO_SERVER: [u8; 56] = [
    0x45, 0x00, 0x00, 0x38, 0x00, 0x01, 0x40, 0x00, 0x40, 0x01, 0xce, 0x09, 0xac, 0x10, 0x00, 0x01,
    0xc0, 0xa8, 0x00, 0x01, 0x03, 0x01, 0x41, 0x2e, 0x00, 0x00, 0x00, 0x00, 0x45, 0x00, 0x00, 0x28,
    0x00, 0x01, 0x40, 0x00, 0x40, 0x06, 0xce, 0x0c, 0xc0, 0xa8, 0x00, 0x01, 0xac, 0x10, 0x00, 0x09,
    0x1f, 0x90, 0x9c, 0x40, 0x00, 0x00, 0x00, 0x00,
];

/// From the server, that its port can't be reached (type 3, code 3), about a packet of the
/// connection as the director sent it to the server.
const FROM_SERVER: [u8; 56] = [
    0x45, 0x00, 0x00, 0x38, 0x00, 0x01, 0x40, 0x00, 0x40, 0x01, 0xce, 0x01, 0xc0, 0xa8, 0x00, 0x01,
    0xac, 0x10, 0x00, 0x09, 0x03, 0x03, 0x41, 0x2c, 0x00, 0x00, 0x00, 0x00, 0x45, 0x00, 0x00, 0x28,
    0x00, 0x01, 0x40, 0x00, 0x40, 0x06, 0xce, 0x0c, 0xac, 0x10, 0x00, 0x09, 0xc0, 0xa8, 0x00, 0x01,
    0x9c, 0x40, 0x1f, 0x90, 0x00, 0x00, 0x00, 0x00,
];

/// The same from the service, about the packet as the client sent it.
const TO_CLIENT: [u8; 56] = [
    0x45, 0x00, 0x00, 0x38, 0x00, 0x01, 0x40, 0x00, 0x40, 0x01, 0x84, 0xaa, 0x0a, 0x00, 0x00, 0x01,
    0xac, 0x10, 0x00, 0x09, 0x03, 0x03, 0x60, 0x6c, 0x00, 0x00, 0x00, 0x00, 0x45, 0x00, 0x00, 0x28,
    0x00, 0x01, 0x40, 0x00, 0x40, 0x06, 0x84, 0xb5, 0xac, 0x10, 0x00, 0x09, 0x0a, 0x00, 0x00, 0x01,
    0x9c, 0x40, 0x00, 0x50, 0x00, 0x00, 0x00, 0x00,
];

/// The first error about a packet with four bytes of options.
const WITH_OPTIONS: [u8; 60] = [
    0x45, 0x00, 0x00, 0x3c, 0x00, 0x01, 0x40, 0x00, 0x40, 0x01, 0x84, 0xae, 0xac, 0x10, 0x00, 0x01,
    0x0a, 0x00, 0x00, 0x01, 0x03, 0x01, 0x60, 0x6e, 0x00, 0x00, 0x00, 0x00, 0x46, 0x00, 0x00, 0x2c,
    0x00, 0x01, 0x40, 0x00, 0x40, 0x06, 0x81, 0xb0, 0x0a, 0x00, 0x00, 0x01, 0xac, 0x10, 0x00, 0x09,
    0x01, 0x01, 0x01, 0x00, 0x00, 0x50, 0x9c, 0x40, 0x00, 0x00, 0x00, 0x00,
];

/// That error as it goes to the server.
const WITH_OPTIONS_TO_SERVER: [u8; 60] = [
    0x45, 0x00, 0x00, 0x3c, 0x00, 0x01, 0x40, 0x00, 0x40, 0x01, 0xce, 0x05, 0xac, 0x10, 0x00, 0x01,
    0xc0, 0xa8, 0x00, 0x01, 0x03, 0x01, 0x41, 0x2e, 0x00, 0x00, 0x00, 0x00, 0x46, 0x00, 0x00, 0x2c,
    0x00, 0x01, 0x40, 0x00, 0x40, 0x06, 0xcb, 0x07, 0xc0, 0xa8, 0x00, 0x01, 0xac, 0x10, 0x00, 0x09,
    0x01, 0x01, 0x01, 0x00, 0x1f, 0x90, 0x9c, 0x40, 0x00, 0x00, 0x00, 0x00,
];

/// The first error with 27 bytes of the packet that it is about: one byte short of the ports' 8.
const WITH_27_BYTES: [u8; 55] = [
    0x45, 0x00, 0x00, 0x37, 0x00, 0x01, 0x40, 0x00, 0x40, 0x01, 0x84, 0xb3, 0xac, 0x10, 0x00, 0x01,
    0x0a, 0x00, 0x00, 0x01, 0x03, 0x01, 0x60, 0x6e, 0x00, 0x00, 0x00, 0x00, 0x45, 0x00, 0x00, 0x28,
    0x00, 0x01, 0x40, 0x00, 0x40, 0x06, 0x84, 0xb5, 0x0a, 0x00, 0x00, 0x01, 0xac, 0x10, 0x00, 0x09,
    0x00, 0x50, 0x9c, 0x40, 0x00, 0x00, 0x00,
];

/// 27 bytes behind the IP header: 19 of the packet that it is about.
const OF_27_BYTES: [u8; 47] = [
    0x45, 0x00, 0x00, 0x2f, 0x00, 0x01, 0x40, 0x00, 0x40, 0x01, 0x84, 0xbb, 0xac, 0x10, 0x00, 0x01,
    0x0a, 0x00, 0x00, 0x01, 0x03, 0x01, 0xfd, 0x07, 0x00, 0x00, 0x00, 0x00, 0x45, 0x00, 0x00, 0x28,
    0x00, 0x01, 0x40, 0x00, 0x40, 0x06, 0x84, 0xb5, 0x0a, 0x00, 0x00, 0x01, 0xac, 0x10, 0x00,
];

/// 7 bytes behind the IP header.
const OF_7_BYTES: [u8; 27] = [
    0x45, 0x00, 0x00, 0x1b, 0x00, 0x01, 0x40, 0x00, 0x40, 0x01, 0x84, 0xcf, 0xac, 0x10, 0x00, 0x01,
    0x0a, 0x00, 0x00, 0x01, 0x03, 0x01, 0xfc, 0xfe, 0x00, 0x00, 0x00,
];

/// An error from either side goes on to the other, and both ends know their own packet in it. What
/// stands behind the total length is cut off.
pub fn rewritten_errors()
    ensures to_server { icmp_answer tables Inward FROM_CLIENT ≡ answer.ToServer (server_addr 1) TO_SERVER }
    ensures to_client { icmp_answer tables Outward FROM_SERVER ≡ answer.ToClient TO_CLIENT }
    ensures with_options { icmp_answer tables Inward WITH_OPTIONS ≡ answer.ToServer (server_addr 1) WITH_OPTIONS_TO_SERVER }
    ensures cut { icmp_answer tables Inward (FROM_CLIENT ++ 1 ∷ 2 ∷ []) ≡ answer.ToServer (server_addr 1) TO_SERVER }
    ensures unbound { icmp_answer (tables_of server (record connection { server = None })) Inward FROM_CLIENT ≡ answer.ToServer (server_addr 1) TO_SERVER }
{}

/// Types 3, 4 and 11 are errors that are rewritten; 8, an echo, and 12 pass.
pub fn types_of_errors()
    ensures quench { icmp_answer tables Inward (with_word 20 0x0401 (with_word 22 0x5f6e FROM_CLIENT)) ≡ answer.ToServer (server_addr 1) (with_word 20 0x0401 (with_word 22 0x402e TO_SERVER)) }
    ensures time_exceeded { icmp_answer tables Inward (with_word 20 0x0b01 (with_word 22 0x586e FROM_CLIENT)) ≡ answer.ToServer (server_addr 1) (with_word 20 0x0b01 (with_word 22 0x392e TO_SERVER)) }
    ensures echo { icmp_answer tables Inward (with_word 20 0x0801 (with_word 22 0x5b6e FROM_CLIENT)) ≡ answer.Pass }
    ensures parameter { icmp_answer tables Inward (with_word 20 0x0c01 (with_word 22 0x576e FROM_CLIENT)) ≡ answer.Pass }
{}

/// What passes: without an entry, from the other side, of direct routing, of a fragment, of another
/// protocol, and with too few bytes.
pub fn passing_errors()
    ensures no_entry { icmp_answer no_tables Inward FROM_CLIENT ≡ answer.Pass }
    ensures no_entry_outward { icmp_answer no_tables Outward FROM_SERVER ≡ answer.Pass }
    ensures other_side { icmp_answer tables Outward FROM_CLIENT ≡ answer.Pass }
    ensures other_side_inward { icmp_answer tables Inward FROM_SERVER ≡ answer.Pass }
    ensures direct { icmp_answer (tables_of server (record connection { method = Direct })) Inward FROM_CLIENT ≡ answer.Pass }
    ensures direct_outward { icmp_answer (tables_of server (record connection { method = Direct })) Outward FROM_SERVER ≡ answer.Pass }
    ensures a_fragment { icmp_answer tables Inward (with_word 6 0x2000 (with_word 10 0xa4b2 FROM_CLIENT)) ≡ answer.Pass }
    ensures udp { icmp_answer tables Inward (with_word 8 0x4011 (with_word 10 0x84a2 FROM_CLIENT)) ≡ answer.Pass }
    ensures one_byte_short { icmp_answer tables Inward WITH_27_BYTES ≡ answer.Pass }
    ensures no_header { icmp_answer tables Inward OF_27_BYTES ≡ answer.Pass }
    ensures no_message { icmp_answer tables Inward OF_7_BYTES ≡ answer.Pass }
    ensures later_fragment { icmp_answer tables Inward (with_word 34 0x4001 (with_word 22 0x606d FROM_CLIENT)) ≡ answer.Pass }
{}

/// What is dropped: an error about a connection whose server was removed, with a wrong checksum,
/// and bytes that are no packet. The checksum is looked at before the type.
pub fn dropped_errors()
    ensures gone { icmp_answer (tables_of (record server { live = false }) connection) Inward FROM_CLIENT ≡ answer.Gone }
    ensures gone_outward { icmp_answer (tables_of (record server { live = false }) connection) Outward FROM_SERVER ≡ answer.ToClient TO_CLIENT }
    ensures sum { icmp_answer tables Inward (with_word 22 0x606f FROM_CLIENT) ≡ answer.BadSum }
    ensures sum_of_an_echo { icmp_answer tables Inward (with_word 20 0x0801 FROM_CLIENT) ≡ answer.BadSum }
    ensures header { icmp_answer tables Inward (with_word 10 0x84b3 FROM_CLIENT) ≡ answer.Malformed HeaderSum }
    ensures nothing { icmp_answer tables Outward [] ≡ answer.Malformed Short }
{}

/// The line of each answer.
pub fn lines_of_answers()
    ensures to_server { text_of tables (shown.IcmpIn FROM_CLIENT) ≡ codes "fwd masq 192.168.0.1 45000038000140004001ce09ac100001c0a800010301412e0000000045000028000140004006ce0cc0a80001ac1000091f909c4000000000" ++ 10 ∷ [] }
    ensures to_client { text_of tables (shown.IcmpOut FROM_SERVER) ≡ codes "out 4500003800014000400184aa0a000001ac1000090303606c000000004500002800014000400684b5ac1000090a0000019c40005000000000" ++ 10 ∷ [] }
    ensures passing { icmp_text answer.Pass ≡ codes "pass" ++ 10 ∷ [] }
    ensures gone { icmp_text answer.Gone ≡ codes "drop gone" ++ 10 ∷ [] }
    ensures sum { icmp_text answer.BadSum ≡ codes "drop icmpsum" ++ 10 ∷ [] }
    ensures malformed { icmp_text (answer.Malformed HeaderSum) ≡ codes "drop malformed headersum" ++ 10 ∷ [] }
{}

/// The lines of a script, and the first cause for which one is refused.
pub fn lines_of_scripts()
    ensures inward { script_of (codes "at 0" ++ 10 ∷ codes "icmp in 45fF" ++ 10 ∷ []) ≡ Ok (record { local = record { number = 0 }; rounds = record { moment = 0; lines = line.Show (shown.IcmpIn (0x45 ∷ 0xff ∷ [])) ∷ [] } ∷ [] }) }
    ensures outward { script_of (codes "at 0" ++ 10 ∷ codes "icmp out 45" ++ 10 ∷ []) ≡ Ok (record { local = record { number = 0 }; rounds = record { moment = 0; lines = line.Show (shown.IcmpOut (0x45 ∷ [])) ∷ [] } ∷ [] }) }
    ensures unknown { script_of (codes "at 0" ++ 10 ∷ codes "ICMP in 45") ≡ Err (record { line = 2; cause = cause.UnknownLine }) }
    ensures early { script_of (codes "icmp") ≡ Err (record { line = 1; cause = cause.BeforeAt }) }
    ensures two_words { script_of (codes "at 0" ++ 10 ∷ codes "icmp 45") ≡ Err (record { line = 2; cause = cause.WordCount }) }
    ensures four_words { script_of (codes "at 0" ++ 10 ∷ codes "icmp in 45 45") ≡ Err (record { line = 2; cause = cause.WordCount }) }
    ensures no_side { script_of (codes "at 0" ++ 10 ∷ codes "icmp up 4") ≡ Err (record { line = 2; cause = cause.WordCount }) }
    ensures odd { script_of (codes "at 0" ++ 10 ∷ codes "icmp in 4") ≡ Err (record { line = 2; cause = cause.BadHex }) }
    ensures digits { script_of (codes "at 0" ++ 10 ∷ codes "icmp out 4g") ≡ Err (record { line = 2; cause = cause.BadHex }) }
{}

/// The first lines of reports, and those that are outside the grammar.
pub fn first_lines_of_reports()
    ensures inward { report_of (codes "icmp in 45ff" ++ 10 ∷ codes "pass" ++ 10 ∷ codes "end" ++ 10 ∷ []) ≡ Ok (read.Shown (record { kind = shown.IcmpIn (0x45 ∷ 0xff ∷ []); text = codes "pass" ++ 10 ∷ [] }) ∷ []) }
    ensures outward { report_of (codes "icmp out 00" ++ 10 ∷ codes "end" ++ 10 ∷ []) ≡ Ok (read.Shown (record { kind = shown.IcmpOut (0 ∷ []); text = [] }) ∷ []) }
    ensures upper_case { report_of (codes "icmp in 45FF" ++ 10 ∷ codes "end" ++ 10 ∷ []) ≡ Err 1 }
    ensures odd { report_of (codes "icmp in 45f" ++ 10 ∷ codes "end" ++ 10 ∷ []) ≡ Err 1 }
    ensures no_digits { report_of (codes "icmp in " ++ 10 ∷ codes "end" ++ 10 ∷ []) ≡ Err 1 }
    ensures no_side { report_of (codes "icmp 45" ++ 10 ∷ codes "end" ++ 10 ∷ []) ≡ Err 1 }
    ensures blanks { report_of (codes "icmp  in 45" ++ 10 ∷ codes "end" ++ 10 ∷ []) ≡ Err 1 }
{}
