//! What the desk shows of itself: all that it keeps, in the order in which listings show it.
ghost use Rattle.std.specs.Prelude.{◌≡◌, IfOk};
ghost use Rattle.lvs_types.specs.declared.template.Template.{Template};
ghost use Rattle.lvs_model.specs.Lists.{sorted_by};
ghost use Rattle.lvs_templates.specs.Rows.{templates_of};
ghost use Rattle.lvs_board.specs.Desks.{seen_of};
ghost use Rattle.lvs_board.specs.Shown.{live_rows, shown_of, shown_rows};

use crate::desk::Desk;
use lvs_dests::Dests;
use lvs_templates::Templates;
use lvs_types::{DestRow, Listed, NoMemory, Service, Snapshot, Template};
use std::alloc::Global;

/// The live servers, service by service.
fn list_live(alloc: Global, services: &[Service], dests: &Dests) -> Result<Vec<DestRow>, NoMemory>
    ensures { IfOk result (λ rows. rows.items ≡ live_rows services.now dests.now.rows) }
{
    let mut rows = Vec::new(alloc);
    for service in services {
        dests.push_live(&service.key, &mut rows)?;
    }
    Ok(rows)
}

/// The live servers service by service, and then the trashed ones by id.
fn list_servers(
    alloc: Global,
    services: &[Service],
    dests: &Dests,
) -> Result<Vec<DestRow>, NoMemory>
    ensures { IfOk result (λ rows. rows.items ≡ shown_rows services.now dests.now.rows) }
{
    let mut rows = list_live(alloc, services, dests)?;
    let mut trashed = dests.trashed(alloc)?;
    rows.append(&mut trashed)?;
    Ok(rows)
}

/// The templates by id.
fn list_templates(alloc: Global, templates: &Templates) -> Result<Vec<Template>, NoMemory>
    ensures { IfOk result (λ all. all.items ≡ sorted_by (λ (t : Template). t.id.0) (templates_of templates.now.rows)) }
{
    templates.all(alloc)
}

impl Desk {
    /// All that it keeps, in the order in which listings show it, without entries.
    pub(crate) fn show(&self, alloc: Global) -> Result<Snapshot, NoMemory>
        ensures { IfOk result (λ shown. shown ≡ shown_of (seen_of self.now)) }
    {
        let services = self.services.list();
        let dests = list_servers(alloc, services, &self.dests)?;
        let templates = list_templates(alloc, &self.templates)?;
        Ok(Snapshot {
            now: self.moment,
            local: self.local,
            settings: self.settings,
            daemons: self.daemons,
            services: Listed::from_vec(services.to_vec(alloc)?),
            dests: Listed::from_vec(dests),
            templates: Listed::from_vec(templates),
            entries: Listed::from_vec(Vec::new(alloc)),
            pending: Listed::from_vec(self.pending.to_vec(alloc)?),
        })
    }
}
