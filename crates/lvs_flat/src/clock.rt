//! The due entries of a bucket, and the reaping of templates and servers.
ghost use Rattle.std.specs.Prelude.{◌≡◌, ◌<◌, ◌≤◌, ◌^◌, ◌==◌, ◌&&◌, ◌+◌, nat_le, IfOk, OnOk, OnErr, count_by, map, not, length};
ghost use Rattle.std.specs.List.{filter, list_any};
ghost use Rattle.lvs_types.specs.declared.entry.Entry.{Entry};
ghost use Rattle.lvs_flat.specs.Lists.{state_of};
ghost use Rattle.lvs_model.specs.Lists.{without};
ghost use Rattle.lvs_model.specs.Counts.{active, inactive, total};
ghost use Rattle.lvs_model.specs.Clock.{entry_bucket, is_swept, is_named_in, after_ends, sweep, is_over, is_held, held_longer, reaped_template, reaped_templates, is_released, reap};

use crate::dests::count_refs;
use crate::entries::count_controls;
use crate::lists::Lists;
use lvs_model::bucket_of;
use lvs_rules::relieved;
use lvs_states::is_active;
use lvs_types::{Dest, DestId, Entry, NoMemory, Reply, Template};
use std::alloc::Global;

/// Whether an entry is in the bucket and due.
fn sweeps(buckets: u32, now: u64, bucket: u32, e: &Entry) -> bool
    requires { 0 < buckets }
    ensures { result ≡ ((entry_bucket buckets e.now == bucket) && nat_le e.now.deadline now) }
{
    bucket_of(e.key.proto.code(), e.key.caddr, e.key.cport, buckets) == bucket && e.deadline <= now
}

/// The due entries of a bucket, in order of the list.
pub(crate) fn list_due(alloc: Global, lists: &Lists, bucket: u32) -> Result<Vec<Entry>, NoMemory>
    requires { 0 < lists.now.buckets }
    ensures { IfOk result (λ v. v.items ≡ filter (is_swept (state_of lists.now) bucket) lists.now.entries.items) }
{
    let mut due = Vec::new(alloc);
    for e in &lists.entries {
        if sweeps(lists.buckets, lists.moment, bucket, e) {
            due.push(*e)?;
        }
    }
    Ok(due)
}

fn is_named_by(due: &[Entry], d: &Dest) -> bool
    ensures { result ≡ is_named_in due.now d.now }
{
    due.iter().any(|e| e.server == Some(d.id))
}

fn count_left_active(lists: &Lists, bucket: u32, id: DestId) -> u64
    requires { 0 < lists.now.buckets }
    ensures value { result ≡ active id (without (is_swept (state_of lists.now) bucket) lists.now.entries.items) }
    ensures bound { result ≤ length lists.now.entries.items }
{
    let buckets = lists.buckets;
    let now = lists.moment;
    lists
        .entries
        .iter()
        .filter(|e| !sweeps(buckets, now, bucket, e))
        .filter(|e| e.server == Some(id) && is_active(e.state))
        .count() as u64
}

fn count_left_inactive(lists: &Lists, bucket: u32, id: DestId) -> u64
    requires { 0 < lists.now.buckets }
    ensures value { result ≡ inactive id (without (is_swept (state_of lists.now) bucket) lists.now.entries.items) }
    ensures bound { result ≤ length lists.now.entries.items }
{
    let buckets = lists.buckets;
    let now = lists.moment;
    lists
        .entries
        .iter()
        .filter(|e| !sweeps(buckets, now, bucket, e))
        .filter(|e| e.server == Some(id) && !is_active(e.state))
        .count() as u64
}

/// How many entries name the server once those of the bucket that are due have ended.
fn count_left(lists: &Lists, bucket: u32, id: DestId) -> u64
    requires { 0 < lists.now.buckets }
    ensures { result ≡ total id (without (is_swept (state_of lists.now) bucket) lists.now.entries.items) }
{
    count_left_active(lists, bucket, id) + count_left_inactive(lists, bucket, id)
}

fn after_sweep(lists: &Lists, bucket: u32, due: &[Entry], d: &Dest) -> Dest
    requires { 0 < lists.now.buckets }
    ensures { result ≡ after_ends due.now (without (is_swept (state_of lists.now) bucket) lists.now.entries.items) d.now }
{
    if is_named_by(due, d) {
        Dest {
            overloaded: relieved(&d.spec, count_left(lists, bucket, d.id), d.overloaded),
            ..*d
        }
    } else {
        *d
    }
}

fn list_after_sweep(
    alloc: Global,
    lists: &Lists,
    bucket: u32,
    due: &[Entry],
) -> Result<Vec<Dest>, NoMemory>
    requires { 0 < lists.now.buckets }
    ensures { IfOk result (λ v. v.items ≡ map (after_ends due.now (without (is_swept (state_of lists.now) bucket) lists.now.entries.items)) lists.now.dests.items) }
{
    let mut dests = Vec::with_capacity(alloc, lists.dests.len())?;
    for d in &lists.dests {
        dests.push(after_sweep(lists, bucket, due, d))?;
    }
    Ok(dests)
}

fn end_swept(entries: &mut Vec<Entry>, buckets: u32, now: u64, bucket: u32)
    requires { 0 < buckets }
    ensures { entries.new.items ≡ without (λ (e : Entry). (entry_bucket buckets e == bucket) && nat_le e.deadline now) entries.old.items }
{
    entries.retain(|e| !sweeps(buckets, now, bucket, e));
}

/// The due entries of the bucket end, some of them at least.
fn end_some(alloc: Global, lists: &mut Lists, bucket: u32, due: &[Entry]) -> Result<(), NoMemory>
    requires buckets { 0 < lists.old.buckets }
    requires due { due.now ≡ filter (is_swept (state_of lists.old) bucket) lists.old.entries.items }
    ensures ok { OnOk result (state_of lists.new ≡ (sweep (state_of lists.old) bucket).1) }
    ensures err { OnErr result (state_of lists.new ≡ state_of lists.old) }
{
    let dests = list_after_sweep(alloc, lists, bucket, due)?;
    end_swept(&mut lists.entries, lists.buckets, lists.moment, bucket);
    lists.dests = dests;
    Ok(())
}

/// The due entries of the bucket end. Where there are none, nothing is walked.
pub(crate) fn end_due(
    alloc: Global,
    lists: &mut Lists,
    bucket: u32,
    due: &[Entry],
) -> Result<(), NoMemory>
    requires buckets { 0 < lists.old.buckets }
    requires due { due.now ≡ filter (is_swept (state_of lists.old) bucket) lists.old.entries.items }
    ensures ok { OnOk result (state_of lists.new ≡ (sweep (state_of lists.old) bucket).1) }
    ensures err { OnErr result (state_of lists.new ≡ state_of lists.old) }
{
    if due.is_empty() {
        return Ok(());
    }
    end_some(alloc, lists, bucket, due)
}

fn is_finished(lists: &Lists, t: &Template) -> bool
    ensures { result ≡ is_over (state_of lists.now) t.now }
{
    t.deadline <= lists.moment && count_controls(&lists.entries, t.id) == 0
}

fn is_still_held(lists: &Lists, t: &Template) -> bool
    ensures { result ≡ is_held (state_of lists.now) t.now }
{
    t.deadline <= lists.moment && 0 < count_controls(&lists.entries, t.id)
}

fn hold_longer(now: u64, t: &Template) -> Template
    requires { now < 2 ^ 32 }
    ensures { result ≡ held_longer now t.now }
{
    Template {
        deadline: now + 60,
        ..*t
    }
}

fn reaped(lists: &Lists, t: &Template) -> Option<Template>
    requires { lists.now.moment < 2 ^ 32 }
    ensures { result ≡ reaped_template (state_of lists.now) t.now }
{
    if is_finished(lists, t) {
        None
    } else if is_still_held(lists, t) {
        Some(hold_longer(lists.moment, t))
    } else {
        Some(*t)
    }
}

fn list_reaped(alloc: Global, lists: &Lists) -> Result<Vec<Template>, NoMemory>
    requires { lists.now.moment < 2 ^ 32 }
    ensures { IfOk result (λ v. v.items ≡ reaped_templates (state_of lists.now)) }
{
    let mut templates = Vec::with_capacity(alloc, lists.templates.len())?;
    for t in &lists.templates {
        if let Some(t) = reaped(lists, t) {
            templates.push(t)?;
        }
    }
    Ok(templates)
}

fn count_finished(lists: &Lists) -> u64
    ensures { result ≡ count_by (is_over (state_of lists.now)) lists.now.templates.items }
{
    lists
        .templates
        .iter()
        .filter(|t| is_finished(lists, t))
        .count() as u64
}

fn count_held(lists: &Lists) -> u64
    ensures { result ≡ count_by (is_held (state_of lists.now)) lists.now.templates.items }
{
    lists
        .templates
        .iter()
        .filter(|t| is_still_held(lists, t))
        .count() as u64
}

fn is_free(entries: &[Entry], templates: &[Template], d: &Dest) -> bool
    ensures { result ≡ is_released entries.now templates.now d.now }
{
    !d.live && count_refs(entries, templates, d.id) == 0
}

fn count_free(entries: &[Entry], templates: &[Template], dests: &[Dest]) -> u64
    ensures { result ≡ count_by (is_released entries.now templates.now) dests.now }
{
    let mut count = 0u64;
    for d in dests {
        if is_free(entries, templates, d) {
            count += 1;
        }
    }
    count
}

fn list_kept(
    alloc: Global,
    entries: &[Entry],
    templates: &[Template],
    dests: &[Dest],
) -> Result<Vec<Dest>, NoMemory>
    ensures { IfOk result (λ v. v.items ≡ without (is_released entries.now templates.now) dests.now) }
{
    let mut kept = Vec::with_capacity(alloc, dests.len())?;
    for d in dests {
        if !is_free(entries, templates, d) {
            kept.push(*d)?;
        }
    }
    Ok(kept)
}

/// Due templates leave or are held longer, and then the servers in the trash that nothing names are
/// released.
pub(crate) fn reap(alloc: Global, lists: &mut Lists) -> Result<Reply, NoMemory>
    requires { lists.old.moment < 2 ^ 32 }
    ensures ok { IfOk result (λ r. (r, state_of lists.new) ≡ reap (state_of lists.old)) }
    ensures err { OnErr result (state_of lists.new ≡ state_of lists.old) }
{
    let gone = count_finished(lists);
    let renewed = count_held(lists);
    let templates = list_reaped(alloc, lists)?;
    let servers = count_free(&lists.entries, &templates, &lists.dests);
    let dests = list_kept(alloc, &lists.entries, &templates, &lists.dests)?;
    lists.templates = templates;
    lists.dests = dests;
    Ok(Reply::Reaped {
        templates: gone,
        renewed,
        servers,
    })
}
