//! What the sequence of sh is, written out.
ghost use Rattle.std.specs.Prelude.{◌≡◌, ℕ, ◌<◌, List, length, Some, slice_get, sum_by};
ghost use Rattle.lvs_types.specs.declared.dest.Candidate.{Candidate};
ghost use Rattle.lvs_model.specs.AddressHash.{share, owner_of};
ghost use Rattle.lvs_sched_hash.specs.Sequence.{written_out};

/// Of each element of the sequence the definition of sh names the server that stands there when the
/// sequence is written out.
pub fn owners_stand_in_sequence()
    ensures length { (servers : List Candidate) → length (written_out 0 servers) ≡ sum_by share servers }
    ensures element { (servers : List Candidate) (k : ℕ) → k < sum_by share servers → slice_get (written_out 0 servers) k ≡ Some (owner_of k servers) }
{}
