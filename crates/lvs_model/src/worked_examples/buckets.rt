//! Worked examples: buckets, what items find there, and what changes make of them.
ghost use Rattle.std.specs.Prelude.{◌≡◌, [], ◌∷◌, Some, None, false};
ghost use Rattle.lvs_types.specs.declared.service.Method.TheVariants.{Masq};
ghost use Rattle.lvs_types.specs.declared.entry.TcpState.TheVariants.{Established};
ghost use Rattle.lvs_types.specs.declared.sync.SyncItem.TheVariants.{V4, V6};
ghost use Rattle.lvs_types.specs.declared.item.Item.TheVariants as item;
ghost use Rattle.lvs_types.specs.declared.bucket.Found.TheVariants as found;
ghost use Rattle.lvs_types.specs.declared.bucket.Change.TheVariants as changes;
ghost use Rattle.lvs_model.specs.Lookups.{entry_at};
ghost use Rattle.lvs_model.specs.MessageExamples.{connection, template_record};
ghost use Rattle.lvs_model.specs.ExampleItems.{web, add_example_service, add_web_server, syn, ack, web_packet};
ghost use Rattle.lvs_model.specs.BucketExamples.{unused, two_connected, left_in_16, web_key, web_entry, new_entry, masqueraded, answer, fragment, icmp_packet};
ghost use Rattle.lvs_model.specs.Buckets.{home, entries_of, look_in, look_up, changed_by, entry_of_id, is_found_with, Carries};

/// Packets of one connection, its answers and its record are of one bucket.
pub fn items_with_a_bucket()
    ensures first { home 16 (syn 40000) ≡ Some 2 }
    ensures second { home 16 (syn 40001) ≡ Some 13 }
    ensures answer { home 16 (answer 40000) ≡ Some 2 }
    ensures learnt { home 16 (item.Learn 0 (V4 connection)) ≡ Some 2 }
    ensures sweep { home 16 (item.Sweep 15) ≡ Some 15 }
    ensures of_one { home 1 (syn 40000) ≡ Some 0 }
{}

/// Fragments, other protocols, what can't be read, templates and the rest of the clock have none.
pub fn items_without_a_bucket()
    ensures fragment { home 16 fragment ≡ None }
    ensures icmp { home 16 icmp_packet ≡ None }
    ensures short { home 16 (item.Incoming 0 (69 ∷ [])) ≡ None }
    ensures template { home 16 (item.Learn 0 (V4 template_record)) ≡ None }
    ensures other_protocol { home 16 (item.Learn 0 (V4 (record connection { code = 1 }))) ≡ None }
    ensures v6 { home 16 (item.Learn 0 V6) ≡ None }
    ensures sweep { home 16 (item.Sweep 16) ≡ None }
    ensures tick { home 16 (item.Tick 60) ≡ None }
    ensures reap { home 16 item.Reap ≡ None }
{}

/// Two connections stand in two of the buckets.
pub fn entries_of_buckets()
    ensures first { entries_of 2 two_connected ≡ new_entry 1 40000 ∷ [] }
    ensures second { entries_of 13 two_connected ≡ new_entry 2 40001 ∷ [] }
    ensures empty { entries_of 3 two_connected ≡ [] }
{}

/// A packet and a record find the entry of their key, in their bucket alone.
pub fn found_by_key()
    ensures first { look_up two_connected (ack 40000) ≡ found.One (new_entry 1 40000) }
    ensures second { look_up two_connected (ack 40001) ≡ found.One (new_entry 2 40001) }
    ensures neither { look_up two_connected (ack 40002) ≡ found.Nothing }
    ensures learnt { look_up two_connected (item.Learn 0 (V4 connection)) ≡ found.One (new_entry 1 40000) }
    ensures no_bucket { look_up two_connected (item.Learn 0 (V4 template_record)) ≡ found.Nothing }
    ensures read { look_in 0 (ack 40000) (new_entry 2 40001 ∷ []) ≡ found.Nothing }
{}

/// An answer finds the masqueraded entry of least id between its two sides.
pub fn found_by_reply()
    ensures least { look_in 0 (answer 40000) (masqueraded Masq (new_entry 2 40000) ∷ masqueraded Masq (new_entry 1 40000) ∷ []) ≡ found.One (masqueraded Masq (new_entry 1 40000)) }
    ensures direct { look_up two_connected (answer 40000) ≡ found.Nothing }
{}

/// A sweep finds what is due exactly now, in its bucket.
pub fn found_due()
    ensures due { look_up (left_in_16 (add_example_service web None ∷ add_web_server 1 ∷ syn 40000 ∷ syn 40001 ∷ item.Tick 60 ∷ [])) (item.Sweep 2) ≡ found.Due (new_entry 1 40000 ∷ []) }
    ensures before { look_up (left_in_16 (add_example_service web None ∷ add_web_server 1 ∷ syn 40000 ∷ item.Tick 59 ∷ [])) (item.Sweep 2) ≡ found.Due [] }
    ensures other_bucket { look_up (left_in_16 (add_example_service web None ∷ add_web_server 1 ∷ syn 40000 ∷ item.Tick 60 ∷ [])) (item.Sweep 3) ≡ found.Due [] }
    ensures no_bucket { look_up two_connected (item.Sweep 16) ≡ found.Nothing }
{}

/// Each change on a list of two.
pub fn changed_lists()
    ensures keep { changed_by changes.Keep (new_entry 1 40000 ∷ new_entry 2 40001 ∷ []) ≡ new_entry 1 40000 ∷ new_entry 2 40001 ∷ [] }
    ensures put { changed_by (changes.Put (new_entry 3 40002)) (new_entry 1 40000 ∷ new_entry 2 40001 ∷ []) ≡ new_entry 1 40000 ∷ new_entry 2 40001 ∷ new_entry 3 40002 ∷ [] }
    ensures update { changed_by (changes.Update (web_entry 1 40000 Established 900 2)) (new_entry 1 40000 ∷ new_entry 2 40001 ∷ []) ≡ web_entry 1 40000 Established 900 2 ∷ new_entry 2 40001 ∷ [] }
    ensures ended { changed_by (changes.End 1) (new_entry 1 40000 ∷ new_entry 2 40001 ∷ []) ≡ new_entry 2 40001 ∷ [] }
    ensures swap { changed_by (changes.Swap 1 (new_entry 3 40000)) (new_entry 1 40000 ∷ new_entry 2 40001 ∷ []) ≡ new_entry 2 40001 ∷ new_entry 3 40000 ∷ [] }
    ensures due { changed_by (changes.EndDue 60) (new_entry 1 40000 ∷ web_entry 2 40001 Established 900 2 ∷ []) ≡ web_entry 2 40001 Established 900 2 ∷ [] }
{}

/// An entry changes only where the one of its id has its key, and a new one comes only with a key that is free.
pub fn what_does_not_fit()
    ensures other_key { is_found_with (web_key 40001) (entry_of_id 1 (new_entry 1 40000 ∷ [])) ≡ false }
    ensures gone { is_found_with (web_key 40000) (entry_of_id 2 (new_entry 1 40000 ∷ [])) ≡ false }
    ensures taken { entry_at (web_key 40000) (new_entry 1 40000 ∷ []) ≡ Some (new_entry 1 40000) }
{}

/// A SYN puts an entry in.
pub fn a_syn_puts()
    ensures { Carries unused (syn 40000) (changes.Put (new_entry 1 40000)) }
{}

/// An ACK changes the entry of its connection.
pub fn an_ack_updates()
    ensures { Carries two_connected (ack 40000) (changes.Update (web_entry 1 40000 Established 900 2)) }
{}

/// A SYN takes up the place of a connection in TIME_WAIT.
pub fn a_reuse_swaps()
    ensures { Carries (left_in_16 (add_example_service web None ∷ add_web_server 1 ∷ syn 40000 ∷ item.Incoming 0 (web_packet 40000 1) ∷ [])) (syn 40000) (changes.Swap 1 (new_entry 2 40000)) }
{}

/// A sweep ends what is due exactly now.
pub fn a_sweep_ends()
    ensures { Carries (left_in_16 (add_example_service web None ∷ add_web_server 1 ∷ syn 40000 ∷ syn 40001 ∷ item.Tick 60 ∷ [])) (item.Sweep 2) (changes.EndDue 60) }
{}

/// An item without a bucket keeps all entries.
pub fn a_tick_keeps()
    ensures { Carries two_connected (item.Tick 60) changes.Keep }
{}
