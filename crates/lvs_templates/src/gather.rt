//! What is read of all rows of a map, in the map's own order.
ghost use Rattle.std.specs.Prelude.{◌≡◌, IfOk};
ghost use Rattle.std.specs.List.{filter, count_by};
ghost use Rattle.std.specs.Map.{values_of};
ghost use Rattle.lvs_templates.specs.Rows.{leaves, is_renewed, templates_of};

use crate::row::TemplateRow;
use lvs_types::{NoMemory, Template};
use std::alloc::Global;
use std::collections::HashMap;

/// The templates that leave at a moment.
pub(crate) fn gather_leaving(
    alloc: Global,
    rows: &HashMap<u64, TemplateRow>,
    now: u64,
) -> Result<Vec<Template>, NoMemory>
    ensures { IfOk result (λ v. v.items ≡ templates_of (filter (leaves now) (values_of rows.now.entries))) }
{
    let gone = rows
        .values()
        .filter(|row| row.leaves(now))
        .map(|row| row.template)
        .collect(alloc)?;
    Ok(gone)
}

/// How many are renewed at a moment.
pub(crate) fn count_renewed(rows: &HashMap<u64, TemplateRow>, now: u64) -> u64
    ensures { result ≡ count_by (is_renewed now) (values_of rows.now.entries) }
{
    rows.values().filter(|row| row.is_renewed(now)).count() as u64
}

/// All templates.
pub(crate) fn gather_all(
    alloc: Global,
    rows: &HashMap<u64, TemplateRow>,
) -> Result<Vec<Template>, NoMemory>
    ensures { IfOk result (λ v. v.items ≡ templates_of (values_of rows.now.entries)) }
{
    let all = rows.values().map(|row| row.template).collect(alloc)?;
    Ok(all)
}
