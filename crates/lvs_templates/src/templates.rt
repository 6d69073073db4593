//! The store of templates.
ghost use Rattle.std.specs.Prelude.{◌≡◌, ◌<◌, ◌≤◌, ◌+◌, ◌-◌, ◌^◌, ◌∷◌, ◌++◌, List, [], IfOk, IfSome, OnOk, OnErr, IsOk, IsSome, None};
ghost use Rattle.std.specs.Option.{option_map, option_copied};
ghost use Rattle.std.specs.List.{find, filter, count_by, AllByRecursion};
ghost use Rattle.lvs_model.specs.Lists.{without};
ghost use Rattle.lvs_model.specs.Lookups.{template_at, template_of_id};
ghost use Rattle.lvs_templates.specs.declared.row.TemplateRow.{TemplateRow};
ghost use Rattle.lvs_templates.specs.Rows.{has_key, has_id, new_row, put, recount, leaves, is_renewed, after_due, templates_of, AreDistinct, IsRising};

use crate::due::Due;
use crate::maps::Maps;
use lvs_types::{NoMemory, Template, TemplateId, TemplateKey};
use std::alloc::Global;
use std::marker::Model;

/// Templates, each key and each id once, each template with its count of controls.
#[derive(Debug, Drop)]
pub struct Templates {
    maps: Maps,
}

impl Model for Templates {
    ghost use Rattle.lvs_templates.specs.Seen.{TemplatesSeen};
    ghost use Rattle.lvs_templates.specs.Maps.{rows_of, IsWhole};

    ghost Value = { TemplatesSeen };

    ghost view = { λ t. record { rows = rows_of t.maps; spare = t.maps.room } };

    ghost invariant = { λ t. IsWhole t.maps };
}

impl Templates {
    /// No templates.
    pub fn new(alloc: Global) -> Result<Templates, NoMemory>
        ensures { IfOk result (λ t. t.rows ≡ []) }
    {
        Ok(Templates {
            maps: Maps::new(alloc),
        })
    }

    /// The template of a key. No two templates have one key or one id.
    pub fn find(&self, key: &TemplateKey) -> Option<&Template>
        ensures template { option_copied result ≡ template_at key.now (templates_of self.now.rows) }
        ensures apart { AreDistinct self.now.rows }
    {
        match self.maps.find(key) {
            Some(row) => Some(&row.template),
            None => None,
        }
    }

    /// The template of an id. No two templates have one key or one id.
    pub fn get(&self, id: TemplateId) -> Option<&Template>
        ensures template { option_copied result ≡ template_of_id id (templates_of self.now.rows) }
        ensures apart { AreDistinct self.now.rows }
    {
        match self.maps.get(id) {
            Some(row) => Some(&row.template),
            None => None,
        }
    }

    /// Puts a template in the place of the one of its key, which it hands back. The count of
    /// controls stays where that one has the same id, and else begins at 0. A template whose id is
    /// there takes no memory.
    pub fn put(&mut self, template: Template) -> Result<Option<Template>, NoMemory>
        requires free { IfSome (find (has_id template.id) self.old.rows) (λ row. row.template.key ≡ template.key) }
        ensures before { IfOk result (λ old. old ≡ template_at template.key (templates_of self.old.rows)) }
        ensures rows { OnOk result (self.new.rows ≡ put template self.old.rows) }
        ensures last { AllByRecursion (λ (row : TemplateRow). row.template.id.0 < template.id.0) self.old.rows → OnOk result (self.new.rows ≡ without (has_key template.key) self.old.rows ++ new_row template ∷ []) }
        ensures known { IsSome (template_of_id template.id (templates_of self.old.rows)) → IsOk result }
        ensures spare { IsSome (template_of_id template.id (templates_of self.old.rows)) → self.new.spare ≡ self.old.spare }
        ensures err { OnErr result (self.new ≡ self.old) }
    {
        if self.maps.get(template.id).is_none() {
            self.maps.reserve()?;
        }
        Ok(self.maps.put(template))
    }

    /// Makes room for one more template. Where there is no memory everything is as before.
    pub fn reserve(&mut self) -> Result<(), NoMemory>
        ensures rows { self.new.rows ≡ self.old.rows }
        ensures ok { OnOk result (0 < self.new.spare) }
        ensures kept { self.old.spare ≤ self.new.spare }
        ensures err { OnErr result (self.new ≡ self.old) }
    {
        self.maps.reserve()
    }

    /// Puts a template in the place of the one of its key, as `put` does, into room that was made.
    /// A template whose id is there leaves the room as it is; one with a new id takes it.
    pub fn put_reserved(&mut self, template: Template) -> Option<Template>
        requires room { 0 < self.old.spare }
        requires free { IfSome (find (has_id template.id) self.old.rows) (λ row. row.template.key ≡ template.key) }
        ensures before { result ≡ template_at template.key (templates_of self.old.rows) }
        ensures rows { self.new.rows ≡ put template self.old.rows }
        ensures last { AllByRecursion (λ (row : TemplateRow). row.template.id.0 < template.id.0) self.old.rows → self.new.rows ≡ without (has_key template.key) self.old.rows ++ new_row template ∷ [] }
        ensures spare { IsSome (template_of_id template.id (templates_of self.old.rows)) → self.new.spare ≡ self.old.spare }
        ensures taken { template_of_id template.id (templates_of self.old.rows) ≡ None → self.new.spare + 1 ≡ self.old.spare }
    {
        self.maps.put(template)
    }

    /// Takes out the template of a key.
    pub fn take(&mut self, key: &TemplateKey) -> Option<Template>
        ensures taken { result ≡ template_at key.now (templates_of self.old.rows) }
        ensures rows { self.new.rows ≡ without (has_key key.now) self.old.rows }
        ensures spare { self.new.spare ≡ self.old.spare }
    {
        match self.maps.leave(key) {
            Some(row) => Some(row.template),
            None => None,
        }
    }

    /// One more entry was made by the template of an id. An id that is gone changes nothing.
    pub fn control(&mut self, id: TemplateId)
        requires room { IfSome (find (has_id id) self.old.rows) (λ row. row.controls < 2 ^ 63) }
        ensures rows { self.new.rows ≡ recount (λ n. n + 1) id self.old.rows }
        ensures spare { self.new.spare ≡ self.old.spare }
    {
        self.maps.raise(id);
    }

    /// One of the entries that the template of an id made is gone. An id that is gone changes
    /// nothing.
    pub fn uncontrol(&mut self, id: TemplateId)
        requires some { IfSome (find (has_id id) self.old.rows) (λ row. 0 < row.controls) }
        ensures rows { self.new.rows ≡ recount (λ n. n - 1) id self.old.rows }
        ensures spare { self.new.spare ≡ self.old.spare }
    {
        self.maps.lower(id);
    }

    /// Takes out the templates that are due at `now`, in seconds, and have no controls, and sets
    /// the deadline of the due ones that have some to 60 seconds from now.
    pub fn due(&mut self, alloc: Global, now: u64) -> Result<Due, NoMemory>
        requires { now < 2 ^ 63 }
        ensures gone { IfOk result (λ due. due.gone.items ≡ templates_of (filter (leaves now) self.old.rows)) }
        ensures rising { IfOk result (λ due. IsRising due.gone.items) }
        ensures renewed { IfOk result (λ due. due.renewed ≡ count_by (is_renewed now) self.old.rows) }
        ensures rows { OnOk result (self.new.rows ≡ after_due now self.old.rows) }
        ensures spare { self.new.spare ≡ self.old.spare }
        ensures err { OnErr result (self.new ≡ self.old) }
    {
        let gone = self.maps.leaving(alloc, now)?;
        let renewed = self.maps.count_renewed(now);
        self.maps.leave_all(&gone);
        self.maps.renew(now);
        Ok(Due { gone, renewed })
    }

    /// All templates, in order of id.
    pub fn all(&self, alloc: Global) -> Result<Vec<Template>, NoMemory>
        ensures templates { IfOk result (λ all. all.items ≡ templates_of self.now.rows) }
        ensures apart { AreDistinct self.now.rows }
        ensures rising { IfOk result (λ all. IsRising all.items) }
    {
        self.maps.all(alloc)
    }
}
