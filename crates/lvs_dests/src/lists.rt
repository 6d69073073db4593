//! The live servers of each service, in order of addition, as a scheduler sees them.
ghost use Rattle.std.specs.Prelude.{◌≡◌, ◌∷◌, [], ◌++◌, ◌<◌, OnOk, None, if◌then◌else◌};
ghost use Rattle.lvs_types.specs.declared.dest.Candidate.{Candidate};
ghost use Rattle.lvs_dests.specs.declared.place.ServiceName.{ServiceName};
ghost use Rattle.lvs_dests.specs.Rows.{replaced, changed, candidate_of_row};
ghost use Rattle.lvs_dests.specs.Places.{name_of};
ghost use Rattle.lvs_dests.specs.Lists.{list_at, list_put, has_candidate_id, HasRoom};

use crate::place::ServiceName;
use crate::row;
use lvs_types::{Candidate, DestId, DestRow, NoMemory};
use std::alloc::Global;
use std::collections::HashMap;

/// The live servers of each service. A service without servers may have an empty list or none.
#[derive(Debug, Drop)]
pub(crate) struct Lists {
    pub(crate) by_service: HashMap<ServiceName, Vec<Candidate>>,
}

impl Lists {
    pub(crate) fn new(alloc: Global) -> Lists
        ensures { (n : ServiceName) → list_at result n ≡ [] }
    {
        Lists {
            by_service: HashMap::new(alloc),
        }
    }

    /// The live servers of a service.
    pub(crate) fn of(&self, name: &ServiceName) -> &[Candidate]
        ensures { result.now ≡ list_at self.now name.now }
    {
        match self.by_service.get(name) {
            Some(list) => list.as_slice(),
            None => &[],
        }
    }

    /// Makes room for one more server of a service.
    pub(crate) fn reserve(&mut self, alloc: Global, name: &ServiceName) -> Result<(), NoMemory>
        ensures lists { (n : ServiceName) → list_at self.new n ≡ list_at self.old n }
        ensures room { OnOk result (HasRoom self.new name.now) }
    {
        self.begin(alloc, name)?;
        self.widen(name)
    }

    /// Gives a service its list.
    fn begin(&mut self, alloc: Global, name: &ServiceName) -> Result<(), NoMemory>
        ensures lists { (n : ServiceName) → list_at self.new n ≡ list_at self.old n }
    {
        if !self.by_service.contains_key(name) {
            self.by_service.insert(*name, Vec::new(alloc))?;
        }
        Ok(())
    }

    /// Makes room in the list of a service.
    fn widen(&mut self, name: &ServiceName) -> Result<(), NoMemory>
        ensures lists { (n : ServiceName) → list_at self.new n ≡ list_at self.old n }
        ensures room { OnOk result (HasRoom self.new name.now) }
    {
        match self.by_service.get_mut(name) {
            Some(list) => Ok(list.reserve(1)?),
            None => Err(NoMemory),
        }
    }

    /// Puts a server last in a service.
    pub(crate) fn push(&mut self, name: &ServiceName, candidate: Candidate)
        requires { HasRoom self.old name.now }
        ensures { (n : ServiceName) → list_at self.new n ≡ list_put (list_at self.old) name.now (list_at self.old name.now ++ candidate ∷ []) n }
    {
        if let Some(list) = self.by_service.get_mut(name) {
            list.push_reserved(candidate);
        }
    }

    /// Shows the new content of a server in the list of its service, where it is live.
    pub(crate) fn show(&mut self, row: &DestRow)
        ensures { (n : ServiceName) → list_at self.new n ≡ (if row.now.dest.live then list_put (list_at self.old) (name_of row.now.dest.service) (changed (has_candidate_id row.now.dest.id) (λ _. candidate_of_row row.now) (list_at self.old (name_of row.now.dest.service))) n else list_at self.old n) }
    {
        if row.dest.live {
            let name = ServiceName::of(&row.dest.service);
            self.write(&name, row::candidate(row));
        }
    }

    /// Puts a server in the place of the one of the same id.
    fn write(&mut self, name: &ServiceName, candidate: Candidate)
        ensures { (n : ServiceName) → list_at self.new n ≡ list_put (list_at self.old) name.now (changed (has_candidate_id candidate.id) (λ _. candidate) (list_at self.old name.now)) n }
    {
        if let Some(list) = self.by_service.get_mut(name) {
            overwrite(list, candidate);
        }
    }

    /// Takes a server out of a service.
    pub(crate) fn leave(&mut self, name: &ServiceName, id: DestId)
        ensures { (n : ServiceName) → list_at self.new n ≡ list_put (list_at self.old) name.now (replaced (has_candidate_id id) None (list_at self.old name.now)) n }
    {
        if let Some(list) = self.by_service.get_mut(name) {
            take_out(list, id);
        }
    }
}

/// Of two contents of a server the new one, and of two servers the old one.
fn newer(old: &Candidate, new: Candidate) -> Candidate
    ensures { result ≡ (if has_candidate_id new.id old.now then new else old.now) }
{
    if old.id == new.id { new } else { *old }
}

fn overwrite(list: &mut [Candidate], candidate: Candidate)
    ensures { list.new ≡ changed (has_candidate_id candidate.id) (λ _. candidate) list.old }
{
    for place in list.iter_mut() {
        *place = newer(place, candidate);
    }
}

fn take_out(list: &mut Vec<Candidate>, id: DestId)
    ensures { list.new.items ≡ replaced (has_candidate_id id) None list.old.items }
{
    list.retain(|candidate| candidate.id != id);
}

/// The list with a candidate in the place of the one of its id.
pub(crate) fn with_candidate(mut list: Vec<Candidate>, candidate: Candidate) -> Vec<Candidate>
    ensures { result.items ≡ changed (has_candidate_id candidate.id) (λ _. candidate) list.items }
{
    overwrite(&mut list, candidate);
    list
}
