//! Edits of the servers (ipvsadm(8), `-a`, `-e` and `-d`).
ghost use Rattle.std.specs.Prelude.{◌≡◌, ◌≢◌, ◌↔◌, true, false, ◌<◌, ◌^◌, Ok, Err, IfOk, OnOk, OnErr};
ghost use Rattle.std.specs.List.{find};
ghost use Rattle.lvs_types.specs.Thresholds.{has_bad_thresholds};
ghost use Rattle.lvs_dests.specs.Rows.{is_known, is_row_at, placed, edit_answer, edited, remove_answer, removed_by, is_live_row};

use crate::dests::Dests;
use crate::refused::{DestRefused, Removed};
use crate::row;
use lvs_types::{Addr, DestId, DestRow, DestSpec, ServiceKey};

/// Whether a server is there and live.
fn is_live(row: &Option<DestRow>) -> bool
    ensures { result ≡ is_live_row row.now }
{
    match row {
        Some(row) => row.dest.live,
        None => false,
    }
}

impl Dests {
    /// Puts a server last in its service: the one in the trash of that service, address and port,
    /// with its id and numbers, or a new one. It is refused with Exists where a live one is there,
    /// with Thresholds where the lower threshold is above the upper one, and then only for want of
    /// memory.
    pub fn add(&mut self, service: &ServiceKey, spec: &DestSpec) -> Result<DestId, DestRefused>
        requires next { self.old.next < 2 ^ 63 }
        ensures exists { (result ≡ Err DestRefused.Exists) ↔ (is_known service.now spec.now.addr spec.now.port self.old.rows ≡ true) }
        ensures thresholds { (result ≡ Err DestRefused.Thresholds) ↔ ((is_known service.now spec.now.addr spec.now.port self.old.rows ≡ false) × (has_bad_thresholds spec.now ≡ true)) }
        ensures no_other { result ≢ Err DestRefused.NoDest }
        ensures ok { IfOk result (λ id. (id, self.new) ≡ placed service.now spec.now self.old) }
        ensures err { OnErr result (self.new ≡ self.old) }
    {
        let there = self.standing(service, spec);
        if is_live(&there) {
            return Err(DestRefused::Exists);
        }
        if spec.has_bad_thresholds() {
            return Err(DestRefused::Thresholds);
        }
        match self.place(service, spec, there) {
            Ok(id) => Ok(id),
            Err(_) => Err(DestRefused::NoMemory),
        }
    }

    /// Gives a live server its method, weight and thresholds; its place, id and numbers stay. It is
    /// refused with NoDest where it isn't there, and then with Thresholds where the lower threshold
    /// is above the upper one.
    pub fn edit(&mut self, service: &ServiceKey, spec: &DestSpec) -> Result<(), DestRefused>
        ensures answer { result ≡ edit_answer (is_known service.now spec.now.addr spec.now.port self.old.rows) (has_bad_thresholds spec.now) }
        ensures ok { OnOk result (self.new ≡ edited service.now spec.now self.old) }
        ensures err { OnErr result (self.new ≡ self.old) }
    {
        let Some(row) = self.live_at(service, spec.addr, spec.port) else {
            return Err(DestRefused::NoDest);
        };
        if spec.has_bad_thresholds() {
            return Err(DestRefused::Thresholds);
        }
        self.revise(row::respecify(&row, spec));
        Ok(())
    }

    /// Takes a live server out of its service: it is released where nothing names it, and else it
    /// stands in the trash. It is refused with NoDest where it isn't there.
    pub fn remove(
        &mut self,
        service: &ServiceKey,
        addr: Addr,
        port: u16,
    ) -> Result<Removed, DestRefused>
        ensures answer { result ≡ remove_answer (find (is_row_at service.now addr port) self.old.rows) }
        ensures rows { self.new ≡ removed_by self.old (find (is_row_at service.now addr port) self.old.rows) }
    {
        let Some(row) = self.live_at(service, addr, port) else {
            return Err(DestRefused::NoDest);
        };
        if row::is_free(&row) {
            self.release(&row);
            Ok(Removed::Released)
        } else {
            self.retire(&row);
            Ok(Removed::Trashed)
        }
    }
}
