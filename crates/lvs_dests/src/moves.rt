//! How a server comes, changes, goes and comes back: in the pool, and in the list of its service.
ghost use Rattle.std.specs.Prelude.{◌≡◌, ◌<◌, ◌^◌, true, false, None, Some, is_some, IfSome, IfNone, IsSomeAnd, OnErr, IfOk, if◌then◌else◌};
ghost use Rattle.std.specs.List.{find};
ghost use Rattle.lvs_types.specs.declared.dest.DestRow.{DestRow};
ghost use Rattle.lvs_dests.specs.Rows.{has_row_id, row_at, replaced, change, is_row_at, is_row_revivable, is_known, is_live_row, placed_by, out_of_service};
ghost use Rattle.lvs_dests.specs.Places.{place_at, has_place};
ghost use Rattle.lvs_dests.specs.Pool.{DifferInId};
ghost use Rattle.lvs_dests.specs.Dests.{IsRevision, IsStanding, IsLiveAt};

use crate::dests::Dests;
use crate::place::{Place, ServiceName};
use crate::row;
use lvs_types::{Addr, DestId, DestRow, DestSpec, NoMemory, ServiceKey};

impl Dests {
    /// The server of an id.
    pub(crate) fn row(&self, id: DestId) -> Option<DestRow>
        ensures row { result ≡ row_at id self.now.rows }
        ensures apart { DifferInId self.now.rows }
    {
        self.pool.get(id).copied()
    }

    /// The server of a service, address and port, live or in the trash.
    pub(crate) fn standing(&self, service: &ServiceKey, spec: &DestSpec) -> Option<DestRow>
        ensures known { is_live_row result ≡ is_known service.now spec.now.addr spec.now.port self.now.rows }
        ensures kept { find (is_row_revivable service.now spec.now) self.now.rows ≡ (if is_live_row result then None else result) }
        ensures there { IfSome result (IsStanding spec.now self.now.rows) }
        ensures free { IfNone result (find (has_place (place_at service.now spec.now.addr spec.now.port)) self.now.rows ≡ None) }
    {
        self.pool
            .at(&Place::at(service, spec.addr, spec.port))
            .copied()
    }

    /// The live server of a service, address and port.
    pub(crate) fn live_at(&self, service: &ServiceKey, addr: Addr, port: u16) -> Option<DestRow>
        ensures row { result ≡ find (is_row_at service.now addr port) self.now.rows }
        ensures known { is_some result ≡ is_known service.now addr port self.now.rows }
        ensures there { IfSome result (IsLiveAt service.now addr port self.now.rows) }
        ensures apart { DifferInId self.now.rows }
    {
        let Some(row) = self.pool.at(&Place::at(service, addr, port)) else {
            return None;
        };
        if row.dest.live { Some(*row) } else { None }
    }

    /// Puts a server in the place of the one of the same id.
    pub(crate) fn revise(&mut self, row: DestRow)
        requires { IsSomeAnd (row_at row.dest.id self.old.rows) (λ old. IsRevision old row) }
        ensures rows { self.new ≡ record self.old { rows = replaced (has_row_id row.dest.id) (Some row) self.old.rows } }
        ensures changed { (f : DestRow → DestRow) (old : DestRow) → row_at row.dest.id self.old.rows ≡ Some old → f old ≡ row → self.new ≡ change row.dest.id f self.old }
    {
        self.pool.write(row);
        self.lists.show(&row);
    }

    /// Takes out a live server that nothing names.
    pub(crate) fn release(&mut self, row: &DestRow)
        requires there { row_at row.now.dest.id self.old.rows ≡ Some row.now }
        requires live { row.now.dest.live ≡ true }
        ensures { self.new ≡ record self.old { rows = replaced (has_row_id row.now.dest.id) None self.old.rows } }
    {
        self.pool.take(row.dest.id);
        let name = ServiceName::of(&row.dest.service);
        self.lists.leave(&name, row.dest.id);
    }

    /// Puts a live server into the trash.
    pub(crate) fn retire(&mut self, row: &DestRow)
        requires there { row_at row.now.dest.id self.old.rows ≡ Some row.now }
        requires live { row.now.dest.live ≡ true }
        ensures { self.new ≡ record self.old { rows = replaced (has_row_id row.now.dest.id) (Some (out_of_service row.now)) self.old.rows } }
    {
        self.pool.write(row::trash(row));
        let name = ServiceName::of(&row.dest.service);
        self.lists.leave(&name, row.dest.id);
    }

    /// Takes a server back from the trash, with its id and numbers.
    fn take_back(&mut self, row: &DestRow, spec: &DestSpec) -> Result<DestId, NoMemory>
        requires there { IsStanding spec.now self.old.rows row.now }
        requires trashed { row.now.dest.live ≡ false }
        ensures ok { IfOk result (λ id. (id, self.new) ≡ placed_by row.now.dest.service spec.now self.old (Some row.now)) }
        ensures err { OnErr result (self.new ≡ self.old) }
    {
        let name = ServiceName::of(&row.dest.service);
        self.lists.reserve(self.alloc, &name)?;
        let revived = row::revive(row, spec);
        self.pool.renew(revived)?;
        self.lists.push(&name, row::candidate(&revived));
        Ok(row.dest.id)
    }

    /// Puts a new server last, with the next id.
    fn put_new(&mut self, service: &ServiceKey, spec: &DestSpec) -> Result<DestId, NoMemory>
        requires next { self.old.next < 2 ^ 63 }
        requires free { find (has_place (place_at service.now spec.now.addr spec.now.port)) self.old.rows ≡ None }
        ensures ok { IfOk result (λ id. (id, self.new) ≡ placed_by service.now spec.now self.old None) }
        ensures err { OnErr result (self.new ≡ self.old) }
    {
        let name = ServiceName::of(service);
        self.lists.reserve(self.alloc, &name)?;
        let id = DestId(self.next);
        let row = row::make(id, service, spec);
        self.pool.insert(row)?;
        self.lists.push(&name, row::candidate(&row));
        self.next += 1;
        Ok(id)
    }

    /// Puts a server last: the one that stands in the trash, or else a new one.
    pub(crate) fn place(
        &mut self,
        service: &ServiceKey,
        spec: &DestSpec,
        there: Option<DestRow>,
    ) -> Result<DestId, NoMemory>
        requires next { self.old.next < 2 ^ 63 }
        requires there { IfSome there (IsStanding spec.now self.old.rows) }
        requires trashed { is_live_row there ≡ false }
        requires free { IfNone there (find (has_place (place_at service.now spec.now.addr spec.now.port)) self.old.rows ≡ None) }
        ensures ok { IfOk result (λ id. (id, self.new) ≡ placed_by service.now spec.now self.old there) }
        ensures err { OnErr result (self.new ≡ self.old) }
    {
        match there {
            Some(row) => self.take_back(&row, spec),
            None => self.put_new(service, spec),
        }
    }
}
