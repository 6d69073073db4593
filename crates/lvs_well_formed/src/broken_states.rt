//! Worked examples of the well formed state: for each of its lines a state in which that line alone is false.
ghost use Rattle.lvs_model.specs.State.{State};
ghost use Rattle.lvs_model.specs.WellFormed.{IsWellFormed};
ghost use Rattle.lvs_well_formed.specs.Broken.{HasBroken, two_services_of_a_key, two_entries_of_a_key, two_templates_of_a_key, an_entry_of_the_next_id, two_servers_of_an_id, a_template_of_id_0, two_servers_at_a_place, a_server_without_a_service, a_lower_threshold_above, a_cursor_at_no_server, an_entry_of_no_server, a_template_of_no_server, an_entry_that_goes_elsewhere, an_entry_of_the_next_template, a_tcp_entry_without_a_state, a_record_that_waits_for_no_master};

/// A state in which no line is broken is well formed, and the other way round.
pub fn no_line_is_broken()
    ensures whole { (s : State) → HasBroken 0 s → IsWellFormed s }
    ensures unbroken { (s : State) → IsWellFormed s → HasBroken 0 s }
{}

/// For each line of the definition, in its order, a state in which it is false and all others hold.
pub fn each_line_says_something()
    ensures service_keys { HasBroken 1 two_services_of_a_key }
    ensures entry_keys { HasBroken 2 two_entries_of_a_key }
    ensures template_keys { HasBroken 3 two_templates_of_a_key }
    ensures entry_ids { HasBroken 4 an_entry_of_the_next_id }
    ensures dest_ids { HasBroken 5 two_servers_of_an_id }
    ensures template_ids { HasBroken 6 a_template_of_id_0 }
    ensures places { HasBroken 7 two_servers_at_a_place }
    ensures live_dests { HasBroken 8 a_server_without_a_service }
    ensures thresholds { HasBroken 9 a_lower_threshold_above }
    ensures cursors { HasBroken 10 a_cursor_at_no_server }
    ensures entry_servers { HasBroken 11 an_entry_of_no_server }
    ensures template_servers { HasBroken 12 a_template_of_no_server }
    ensures bound_entries { HasBroken 13 an_entry_that_goes_elsewhere }
    ensures entry_templates { HasBroken 14 an_entry_of_the_next_template }
    ensures entry_states { HasBroken 15 a_tcp_entry_without_a_state }
    ensures pending { HasBroken 16 a_record_that_waits_for_no_master }
{}
