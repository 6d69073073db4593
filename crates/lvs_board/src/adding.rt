//! A new template on the desk.
ghost use Rattle.std.specs.Prelude.{◌≡◌, ◌<◌, ◌++◌, ◌∷◌, []};
ghost use Rattle.std.specs.List.{AllByRecursion};
ghost use Rattle.lvs_model.specs.Lists.{without};
ghost use Rattle.lvs_model.specs.Scheduling.{replace_template};
ghost use Rattle.lvs_templates.specs.declared.row.TemplateRow.{TemplateRow};
ghost use Rattle.lvs_templates.specs.Rows.{has_key};
ghost use Rattle.lvs_board.specs.Desks.{state_of, IsSound};
ghost use Rattle.lvs_board.specs.Made.{made_row, new_is_made};
ghost use Rattle.lvs_board.specs.Rooms.{HasTemplateRoom};

use crate::desk::Desk;
use crate::holding::{hold_server, server_held, unhold_server};
use lvs_rules::Whole;
use lvs_templates::Templates;
use lvs_types::{Change, Template, TemplateId};

/// Whether the new entry of the item was made by the template.
fn is_made(change: &Change, id: TemplateId) -> bool
    ensures { result ≡ new_is_made id change.now }
{
    match change {
        Change::Put(e) => e.template == Some(id),
        Change::Swap(_, e) => e.template == Some(id),
        _ => false,
    }
}

/// The template of the key leaves, if there is one, and this new one stands last, with one entry
/// that was made by it or with none.
fn enter_template(templates: &mut Templates, t: &Template, made: bool)
    requires room { 0 < templates.old.spare }
    requires below { AllByRecursion (λ (row : TemplateRow). row.template.id.0 < t.now.id.0) templates.old.rows }
    ensures { templates.new.rows ≡ without (has_key t.now.key) templates.old.rows ++ made_row t.now made ∷ [] }
{
    let _ = templates.put_reserved(*t);
    if made {
        templates.control(t.id);
    }
}

impl Desk {
    /// The template of the key leaves, if there is one, and this new one stands last. The new entry
    /// of the item may name it already.
    pub(crate) fn add_template<W: Whole>(&mut self, t: &Template)
        requires sound { IsSound W.whole self.old }
        requires room { HasTemplateRoom self.old }
        requires id { t.now.id.0 ≡ self.old.next_template }
        ensures state { state_of W.whole self.new ≡ replace_template t.now (state_of W.whole self.old) }
        ensures sound { IsSound W.whole self.new }
        ensures rest { self.new ≡ record self.old { dests = self.new.dests; templates = self.new.templates; next_template = self.new.next_template } }
    {
        let before = self.template::<W>(&t.key);
        enter_template(&mut self.templates, t, is_made(&self.change, t.id));
        unhold_server(&mut self.dests, server_held(before));
        hold_server(&mut self.dests, t.server);
        self.next_template += 1;
    }
}
