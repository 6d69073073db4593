//! Worked examples of sync messages, of what is sent, and of what becomes of a record that arrives.
ghost use Rattle.std.specs.Prelude.{◌≡◌, [], ◌∷◌, None, Some, Ok, Err, true, false};
ghost use Rattle.lvs_types.specs.declared.sync.SyncItem.TheVariants.{V4, V6};
ghost use Rattle.lvs_types.specs.declared.sync.BadSync.TheVariants.{Short, Version, Size, RecordShort, RecordVersion, Count};
ghost use Rattle.lvs_types.specs.declared.sync.Learnt.TheVariants as learnt;
ghost use Rattle.lvs_types.specs.declared.service.Proto.TheVariants as proto;
ghost use Rattle.lvs_types.specs.declared.service.Method.TheVariants as method;
ghost use Rattle.lvs_types.specs.declared.entry.TcpState.TheVariants as state;
ghost use Rattle.lvs_types.specs.Settings.{default_settings};
ghost use Rattle.lvs_model.specs.Messages.{written};
ghost use Rattle.lvs_model.specs.MessageReading.{read_sync, message_with, are_options};
ghost use Rattle.lvs_model.specs.SyncRules.{due_for_sync, of_entry, of_template, accept, is_template_record};
ghost use Rattle.lvs_model.specs.MessageExamples.{connection, version_1, version_0, old_connection, entry, template, template_record};

/// The message of one connection as a Linux 6.1 director with sync id 7 sent it in version 1, and
/// the same connection in version 0.
pub fn written_messages()
    ensures in_version_1 { written 1 7 (connection ∷ []) ≡ version_1 }
    ensures in_version_0 { written 0 7 (connection ∷ []) ≡ version_0 }
{}

/// The same messages, read.
pub fn read_messages()
    ensures of_version_1 { read_sync version_1 ≡ Ok (message_with 7 (V4 connection ∷ [])) }
    ensures of_version_0 { read_sync version_0 ≡ Ok (message_with 7 (V4 old_connection ∷ [])) }
    ensures of_no_record { read_sync (0 ∷ 7 ∷ 0 ∷ 8 ∷ 0 ∷ 1 ∷ 0 ∷ 0 ∷ []) ≡ Ok (message_with 7 []) }
    ensures of_ipv6 { read_sync (0 ∷ 7 ∷ 0 ∷ 12 ∷ 1 ∷ 1 ∷ 0 ∷ 0 ∷ 1 ∷ 6 ∷ 0 ∷ 4 ∷ []) ≡ Ok (message_with 7 (V6 ∷ [])) }
    ensures without_padding { read_sync (0 ∷ 7 ∷ 0 ∷ 13 ∷ 1 ∷ 1 ∷ 0 ∷ 0 ∷ 1 ∷ 6 ∷ 0 ∷ 5 ∷ 9 ∷ []) ≡ Ok (message_with 7 (V6 ∷ [])) }
    ensures with_padding { read_sync (0 ∷ 7 ∷ 0 ∷ 16 ∷ 1 ∷ 1 ∷ 0 ∷ 0 ∷ 1 ∷ 6 ∷ 0 ∷ 5 ∷ 9 ∷ 9 ∷ 9 ∷ 9 ∷ []) ≡ Ok (message_with 7 (V6 ∷ [])) }
{}

/// Bytes that are no message, with the first cause.
pub fn refused_messages()
    ensures nothing { read_sync [] ≡ Err Short }
    ensures a_short_header { read_sync (0 ∷ 7 ∷ 0 ∷ 7 ∷ 0 ∷ 1 ∷ 0 ∷ []) ≡ Err Short }
    ensures version_2 { read_sync (0 ∷ 7 ∷ 0 ∷ 9 ∷ 0 ∷ 2 ∷ 0 ∷ 0 ∷ []) ≡ Err Version }
    ensures another_size { read_sync (0 ∷ 7 ∷ 0 ∷ 9 ∷ 0 ∷ 1 ∷ 0 ∷ 0 ∷ []) ≡ Err Size }
    ensures a_record_missing { read_sync (0 ∷ 7 ∷ 0 ∷ 8 ∷ 1 ∷ 1 ∷ 0 ∷ 0 ∷ []) ≡ Err Count }
    ensures a_record_cut { read_sync (0 ∷ 7 ∷ 0 ∷ 9 ∷ 1 ∷ 1 ∷ 0 ∷ 0 ∷ 0 ∷ []) ≡ Err RecordShort }
    ensures an_ipv4_record_of_4_bytes { read_sync (0 ∷ 7 ∷ 0 ∷ 12 ∷ 1 ∷ 1 ∷ 0 ∷ 0 ∷ 0 ∷ 6 ∷ 0 ∷ 4 ∷ []) ≡ Err RecordShort }
    ensures version_1_of_a_record { read_sync (0 ∷ 7 ∷ 0 ∷ 12 ∷ 1 ∷ 1 ∷ 0 ∷ 0 ∷ 0 ∷ 6 ∷ 16 ∷ 0 ∷ []) ≡ Err RecordVersion }
    ensures bytes_after_the_padding { read_sync (0 ∷ 7 ∷ 0 ∷ 17 ∷ 1 ∷ 1 ∷ 0 ∷ 0 ∷ 1 ∷ 6 ∷ 0 ∷ 5 ∷ 9 ∷ 9 ∷ 9 ∷ 9 ∷ 9 ∷ []) ≡ Err Count }
    ensures an_end_in_the_padding { read_sync (0 ∷ 7 ∷ 0 ∷ 14 ∷ 2 ∷ 1 ∷ 0 ∷ 0 ∷ 1 ∷ 6 ∷ 0 ∷ 5 ∷ 9 ∷ 9 ∷ []) ≡ Err Count }
    ensures a_short_header_of_version_0 { read_sync (1 ∷ 7 ∷ 0 ∷ []) ≡ Err Short }
    ensures a_record_missing_of_version_0 { read_sync (1 ∷ 7 ∷ 0 ∷ 4 ∷ []) ≡ Err Count }
    ensures a_record_cut_of_version_0 { read_sync (1 ∷ 7 ∷ 0 ∷ 5 ∷ 0 ∷ []) ≡ Err RecordShort }
{}

/// Options: a type, a length and so many bytes, each.
pub fn options_of_records()
    ensures none { are_options 0 [] ≡ true }
    ensures two { are_options 0 (1 ∷ 1 ∷ 9 ∷ 2 ∷ 2 ∷ 8 ∷ 8 ∷ []) ≡ true }
    ensures no_length { are_options 0 (1 ∷ 1 ∷ 9 ∷ 2 ∷ []) ≡ false }
    ensures a_length_of_0 { are_options 0 (1 ∷ 0 ∷ []) ≡ false }
    ensures past_the_end { are_options 0 (1 ∷ 2 ∷ 9 ∷ []) ≡ false }
{}

/// What is sent of an entry and of a template.
pub fn sent_records()
    ensures active { of_entry entry ≡ connection }
    ensures inactive { of_entry (record entry { state = Some state.TimeWait; method = method.Tunnel }) ≡ record connection { flags = 0x102; state = 5 } }
    ensures of_udp { of_entry (record entry { key = record entry.key { proto = proto.Udp }; state = None }) ≡ record connection { code = 17; flags = 0x100; state = 0 } }
    ensures of_a_mark { of_template template ≡ template_record }
    ensures is_template { is_template_record template_record ≡ true }
    ensures is_connection { is_template_record connection ≡ false }
{}

/// With the threshold 3 and the period 50, an established connection is due at its packets 3, 53,
/// 103 and so on, and whenever its state changes to one that is sent.
pub fn due_connections()
    ensures a_change { due_for_sync default_settings (Some state.SynRecv) entry ≡ true }
    ensures no_change { due_for_sync default_settings (Some state.Established) entry ≡ false }
    ensures at_the_threshold { due_for_sync default_settings (Some state.Established) (record entry { packets = 3 }) ≡ true }
    ensures at_the_next_period { due_for_sync default_settings (Some state.Established) (record entry { packets = 53 }) ≡ true }
    ensures without_a_period { due_for_sync (record default_settings { period = 0 }) (Some state.Established) (record entry { packets = 53 }) ≡ false }
    ensures not_opening { due_for_sync default_settings (Some state.None0) (record entry { state = Some state.SynRecv }) ≡ false }
    ensures not_udp { due_for_sync default_settings None (record entry { key = record entry.key { proto = proto.Udp }; state = None; packets = 3 }) ≡ false }
{}

/// What becomes of records, in the order of the answers.
pub fn learnt_records()
    ensures off { accept None 7 V6 ≡ learnt.Off }
    ensures other_id { accept (Some 7) 8 V6 ≡ learnt.OtherId }
    ensures ipv6 { accept (Some 7) 7 V6 ≡ learnt.V6 }
    ensures protocol { accept (Some 7) 7 (V4 (record connection { code = 0; state = 11 })) ≡ learnt.BadProto }
    ensures a_state { accept (Some 7) 7 (V4 (record connection { state = 11; flags = 1 })) ≡ learnt.BadState }
    ensures a_method { accept (Some 7) 7 (V4 (record connection { flags = 0x101 })) ≡ learnt.BadMethod }
    ensures accepted { accept (Some 7) 7 (V4 connection) ≡ learnt.Accepted }
    ensures any_id { accept (Some 0) 8 (V4 connection) ≡ learnt.Accepted }
    ensures of_a_mark { accept (Some 7) 7 (V4 template_record) ≡ learnt.Accepted }
{}
