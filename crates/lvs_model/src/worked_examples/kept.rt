//! Worked examples: what a director keeps, as it shows it.
ghost use Rattle.std.specs.Prelude.{◌≡◌, [], ◌∷◌, None, true, false, map};
ghost use Rattle.lvs_types.specs.declared.dest.DestRow.{DestRow};
ghost use Rattle.lvs_types.specs.declared.entry.Entry.{Entry};
ghost use Rattle.lvs_model.specs.ExampleItems.{web, add_example_service, add_web_server, remove_web_server, syn, ack, left_by};
ghost use Rattle.lvs_model.specs.Snapshots.{snapshot_of};

/// Three SYNs to two servers, of which the first was then removed: the live one stands first, each with its counts.
pub fn a_snapshot()
    ensures servers { map (λ (row : DestRow). row.dest.id.0) (snapshot_of (left_by (add_example_service web None ∷ add_web_server 1 ∷ add_web_server 2 ∷ syn 40000 ∷ syn 40001 ∷ ack 40001 ∷ syn 40002 ∷ remove_web_server 1 ∷ []))).dests ≡ 2 ∷ 1 ∷ [] }
    ensures live { map (λ (row : DestRow). row.dest.live) (snapshot_of (left_by (add_example_service web None ∷ add_web_server 1 ∷ add_web_server 2 ∷ syn 40000 ∷ syn 40001 ∷ ack 40001 ∷ syn 40002 ∷ remove_web_server 1 ∷ []))).dests ≡ true ∷ false ∷ [] }
    ensures active { map (λ (row : DestRow). row.active) (snapshot_of (left_by (add_example_service web None ∷ add_web_server 1 ∷ add_web_server 2 ∷ syn 40000 ∷ syn 40001 ∷ ack 40001 ∷ syn 40002 ∷ remove_web_server 1 ∷ []))).dests ≡ 1 ∷ 0 ∷ [] }
    ensures inactive { map (λ (row : DestRow). row.inactive) (snapshot_of (left_by (add_example_service web None ∷ add_web_server 1 ∷ add_web_server 2 ∷ syn 40000 ∷ syn 40001 ∷ ack 40001 ∷ syn 40002 ∷ remove_web_server 1 ∷ []))).dests ≡ 0 ∷ 2 ∷ [] }
    ensures entries { map (λ (e : Entry). e.id) (snapshot_of (left_by (add_example_service web None ∷ add_web_server 1 ∷ syn 40000 ∷ syn 40001 ∷ []))).entries ≡ 1 ∷ 2 ∷ [] }
{}
