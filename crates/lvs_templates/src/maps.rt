//! The two maps of a store: the rows by id, and the ids by key.
ghost use Rattle.std.specs.Prelude.{◌≡◌, ℕ, ◌+◌, ◌-◌, ◌<◌, ◌≤◌, ◌^◌, nat_eq, false, [], IfOk, IfSome, OnOk, OnErr, IsSome, Some, None, IsSomeAnd, map};
ghost use Rattle.std.specs.Option.{option_map, option_copied};
ghost use Rattle.std.specs.List.{find, filter, count_by, IsDistinct};
ghost use Rattle.std.specs.BTreeMap.{insert_entry};
ghost use Rattle.std.specs.Map.{keys_of};
ghost use Rattle.std.specs.Ordering.{nat_cmp};
ghost use Rattle.lvs_types.specs.declared.template.TemplateKey.{TemplateKey};
ghost use Rattle.lvs_model.specs.Same.{template_id_eq};
ghost use Rattle.lvs_model.specs.Lists.{without};
ghost use Rattle.lvs_model.specs.Lookups.{template_at, template_of_id};
ghost use Rattle.lvs_templates.specs.Rows.{has_key, has_id, put, without_all, replace_row, insert_row, recount, leaves, is_renewed, renew, templates_of, AreDistinct};
ghost use Rattle.lvs_templates.specs.Maps.{IsWhole, HasRoom, in_order, rows_of, row_at, id_at, row_put, id_put};

use crate::gather::{count_renewed, gather_all, gather_leaving};
use crate::row::TemplateRow;
use lvs_types::{NoMemory, Template, TemplateId, TemplateKey};
use std::alloc::Global;
use std::collections::HashMap;

/// The rows by the number of their id, and that number by key. Both are hash maps, which can promise
/// room; what is read of all rows is put in order of id.
#[derive(Debug, Drop)]
pub(crate) struct Maps {
    pub(crate) rows: HashMap<u64, TemplateRow>,
    pub(crate) ids: HashMap<TemplateKey, u64>,
    /// For how many more there is room in both maps.
    pub(crate) room: usize,
}

impl Maps {
    pub(crate) fn new(alloc: Global) -> Maps
        ensures whole { IsWhole result }
        ensures rows { rows_of result ≡ [] }
    {
        Maps {
            rows: HashMap::new(alloc),
            ids: HashMap::new(alloc),
            room: 0,
        }
    }

    /// The row of an id.
    pub(crate) fn get(&self, id: TemplateId) -> Option<&TemplateRow>
        requires { IsWhole self.now }
        ensures row { option_copied result ≡ find (has_id id) (rows_of self.now) }
        ensures template { option_map (λ (r : TemplateRow). r.template) (option_copied result) ≡ template_of_id id (templates_of (rows_of self.now)) }
        ensures apart { AreDistinct (rows_of self.now) }
    {
        self.rows.get(&id.0)
    }

    /// The row of a key.
    pub(crate) fn find(&self, key: &TemplateKey) -> Option<&TemplateRow>
        requires { IsWhole self.now }
        ensures row { option_copied result ≡ find (has_key key.now) (rows_of self.now) }
        ensures template { option_map (λ (r : TemplateRow). r.template) (option_copied result) ≡ template_at key.now (templates_of (rows_of self.now)) }
        ensures apart { AreDistinct (rows_of self.now) }
    {
        match self.ids.get(key) {
            Some(id) => self.rows.get(id),
            None => None,
        }
    }

    /// Makes room for one more.
    pub(crate) fn reserve(&mut self) -> Result<(), NoMemory>
        requires { IsWhole self.old }
        ensures whole { IsWhole self.new }
        ensures rows { rows_of self.new ≡ rows_of self.old }
        ensures ok { OnOk result (0 < self.new.room) }
        ensures kept { self.old.room ≤ self.new.room }
        ensures err { OnErr result (self.new.room ≡ self.old.room) }
    {
        if self.room > 0 {
            return Ok(());
        }
        self.rows.reserve(1)?;
        self.ids.reserve(1)?;
        self.room = 1;
        Ok(())
    }

    /// Puts in a template in the place of the one of its key, which it hands back. The count of
    /// controls stays where that one has the same id.
    pub(crate) fn put(&mut self, template: Template) -> Option<Template>
        requires whole { IsWhole self.old }
        requires free { IfSome (find (has_id template.id) (rows_of self.old)) (λ row. row.template.key ≡ template.key) }
        requires room { find (has_id template.id) (rows_of self.old) ≡ None → 0 < self.old.room }
        ensures whole { IsWhole self.new }
        ensures before { result ≡ template_at template.key (templates_of (rows_of self.old)) }
        ensures rows { rows_of self.new ≡ put template (rows_of self.old) }
        ensures kept { IsSome (template_of_id template.id (templates_of (rows_of self.old))) → self.new.room ≡ self.old.room }
        ensures taken { template_of_id template.id (templates_of (rows_of self.old)) ≡ None → self.new.room + 1 ≡ self.old.room }
    {
        let new = TemplateRow {
            template,
            controls: 0,
        };
        let Some(&old) = self.find(&template.key) else {
            self.insert(new);
            return None;
        };
        if template.id == old.template.id {
            self.overwrite(TemplateRow { template, ..old });
        } else {
            self.replace(old.template.id, new);
        }
        Some(old.template)
    }

    /// Puts a row under its id, which is new, and its id under its key.
    fn enter(&mut self, row: TemplateRow)
        requires whole { IsWhole self.old }
        requires room { 0 < self.old.room }
        requires new_id { row_at (in_order self.old.rows.entries) row.template.id.0 ≡ None }
        ensures unique { IsDistinct nat_eq (keys_of self.new.rows.entries) }
        ensures entries { in_order self.new.rows.entries ≡ insert_entry nat_cmp (in_order self.old.rows.entries) row.template.id.0 row }
        ensures rows { (q : ℕ) → row_at (in_order self.new.rows.entries) q ≡ row_put (row_at (in_order self.old.rows.entries)) row.template.id.0 (Some row) q }
        ensures ids { (q : TemplateKey) → id_at self.new.ids.entries q ≡ id_put (id_at self.old.ids.entries) row.template.key (Some row.template.id.0) q }
        ensures has_room { HasRoom self.new }
        ensures room { self.new.room + 1 ≡ self.old.room }
    {
        let id = row.template.id.0;
        let entered: Result<_, _> = self.rows.insert(id, row);
        let _ = entered.unwrap();
        let named: Result<_, _> = self.ids.insert(row.template.key, id);
        let _ = named.unwrap();
        self.room -= 1;
    }

    /// Puts in a row whose id and key are new.
    fn insert(&mut self, row: TemplateRow)
        requires whole { IsWhole self.old }
        requires room { 0 < self.old.room }
        requires new_id { IfSome (find (has_id row.template.id) (rows_of self.old)) (λ other. other.template.key ≡ row.template.key) }
        requires new_key { find (has_key row.template.key) (rows_of self.old) ≡ None }
        ensures whole { IsWhole self.new }
        ensures rows { rows_of self.new ≡ insert_row row (rows_of self.old) }
        ensures room { self.new.room + 1 ≡ self.old.room }
    {
        self.enter(row);
    }

    /// Puts in a row with a new id, and takes out the one of its key, whose id is `old`.
    fn replace(&mut self, old: TemplateId, row: TemplateRow)
        requires whole { IsWhole self.old }
        requires room { 0 < self.old.room }
        requires there { IsSomeAnd (find (has_key row.template.key) (rows_of self.old)) (λ other. other.template.id ≡ old) }
        requires new_id { IfSome (find (has_id row.template.id) (rows_of self.old)) (λ other. other.template.key ≡ row.template.key) }
        requires differ { template_id_eq row.template.id old ≡ false }
        ensures whole { IsWhole self.new }
        ensures rows { rows_of self.new ≡ insert_row row (without (has_key row.template.key) (rows_of self.old)) }
        ensures room { self.new.room + 1 ≡ self.old.room }
    {
        self.enter(row);
        self.rows.remove(&old.0);
    }

    /// Writes a row over the one of the same id and key.
    fn overwrite(&mut self, row: TemplateRow)
        requires whole { IsWhole self.old }
        requires there { IsSomeAnd (find (has_id row.template.id) (rows_of self.old)) (λ other. other.template.key ≡ row.template.key) }
        ensures whole { IsWhole self.new }
        ensures rows { rows_of self.new ≡ replace_row row (rows_of self.old) }
        ensures room { self.new.room ≡ self.old.room }
    {
        if let Some(place) = self.rows.get_mut(&row.template.id.0) {
            *place = row;
        }
    }

    /// Raises the count of controls of an id that is there.
    pub(crate) fn raise(&mut self, id: TemplateId)
        requires whole { IsWhole self.old }
        requires room { IfSome (find (has_id id) (rows_of self.old)) (λ row. row.controls < 2 ^ 63) }
        ensures whole { IsWhole self.new }
        ensures rows { rows_of self.new ≡ recount (λ n. n + 1) id (rows_of self.old) }
        ensures room { self.new.room ≡ self.old.room }
    {
        if let Some(row) = self.rows.get_mut(&id.0) {
            row.controls += 1;
        }
    }

    /// Lowers the count of controls of an id that is there.
    pub(crate) fn lower(&mut self, id: TemplateId)
        requires whole { IsWhole self.old }
        requires some { IfSome (find (has_id id) (rows_of self.old)) (λ row. 0 < row.controls) }
        ensures whole { IsWhole self.new }
        ensures rows { rows_of self.new ≡ recount (λ n. n - 1) id (rows_of self.old) }
        ensures room { self.new.room ≡ self.old.room }
    {
        if let Some(row) = self.rows.get_mut(&id.0) {
            row.controls -= 1;
        }
    }

    /// Takes out the row of a key.
    pub(crate) fn leave(&mut self, key: &TemplateKey) -> Option<TemplateRow>
        requires { IsWhole self.old }
        ensures whole { IsWhole self.new }
        ensures template { option_map (λ (r : TemplateRow). r.template) result ≡ template_at key.now (templates_of (rows_of self.old)) }
        ensures rows { rows_of self.new ≡ without (has_key key.now) (rows_of self.old) }
        ensures room { self.new.room ≡ self.old.room }
    {
        let Some(id) = self.ids.remove(key) else {
            return None;
        };
        self.rows.remove(&id)
    }

    /// Takes out the rows of the keys of some templates.
    pub(crate) fn leave_all(&mut self, gone: &[Template])
        requires { IsWhole self.old }
        ensures whole { IsWhole self.new }
        ensures rows { rows_of self.new ≡ without_all gone.now (rows_of self.old) }
        ensures room { self.new.room ≡ self.old.room }
    {
        for template in gone {
            self.leave(&template.key);
        }
    }

    /// Renews the due rows that have controls.
    pub(crate) fn renew(&mut self, now: u64)
        requires whole { IsWhole self.old }
        requires moment { now < 2 ^ 63 }
        ensures whole { IsWhole self.new }
        ensures rows { rows_of self.new ≡ map (renew now) (rows_of self.old) }
        ensures room { self.new.room ≡ self.old.room }
    {
        self.rows.retain(move |_, row| {
            row.renew(now);
            true
        });
    }

    /// The templates that leave at a moment, in order of id.
    pub(crate) fn leaving(&self, alloc: Global, now: u64) -> Result<Vec<Template>, NoMemory>
        requires { IsWhole self.now }
        ensures { IfOk result (λ v. v.items ≡ templates_of (filter (leaves now) (rows_of self.now))) }
    {
        let mut gone = gather_leaving(alloc, &self.rows, now)?;
        gone.sort_unstable_by_key(|template| template.id.0);
        Ok(gone)
    }

    /// How many are renewed at a moment.
    pub(crate) fn count_renewed(&self, now: u64) -> u64
        requires { IsWhole self.now }
        ensures { result ≡ count_by (is_renewed now) (rows_of self.now) }
    {
        count_renewed(&self.rows, now)
    }

    /// All templates, in order of id.
    pub(crate) fn all(&self, alloc: Global) -> Result<Vec<Template>, NoMemory>
        requires { IsWhole self.now }
        ensures templates { IfOk result (λ v. v.items ≡ templates_of (rows_of self.now)) }
        ensures apart { AreDistinct (rows_of self.now) }
    {
        let mut all = gather_all(alloc, &self.rows)?;
        all.sort_unstable_by_key(|template| template.id.0);
        Ok(all)
    }
}
