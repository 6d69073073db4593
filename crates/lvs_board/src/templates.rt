//! Templates on the desk. The numbers beside the servers follow them.
ghost use Rattle.std.specs.Prelude.{◌≡◌, IfSome};
ghost use Rattle.std.specs.List.{IsDistinct};
ghost use Rattle.lvs_model.specs.Binding.{put_template};
ghost use Rattle.lvs_model.specs.Lookups.{template_at, template_of_id};
ghost use Rattle.lvs_model.specs.Same.{template_key_eq};
ghost use Rattle.lvs_model.specs.WellFormed.{template_keys};
ghost use Rattle.lvs_rules.specs.Changes.{IsTemplateUpdate};
ghost use Rattle.lvs_board.specs.Desks.{state_of, IsSound, Gives};

use crate::desk::Desk;
use crate::holding::{hold_server, newly_held};
use lvs_rules::Whole;
use lvs_types::{Template, TemplateId, TemplateKey};

impl Desk {
    /// The template of a key. No two templates have one key.
    pub(crate) fn template<W: Whole>(&self, key: &TemplateKey) -> Option<Template>
        ensures template { result ≡ template_at key.now (state_of W.whole self.now).templates }
        ensures gives { IfSome result (Gives self.now) }
        ensures apart { IsDistinct template_key_eq (template_keys (state_of W.whole self.now).templates) }
    {
        self.templates.find(key).copied()
    }

    /// The template of an id.
    pub(crate) fn template_of<W: Whole>(&self, id: TemplateId) -> Option<Template>
        ensures { result ≡ template_of_id id (state_of W.whole self.now).templates }
    {
        self.templates.get(id).copied()
    }

    /// Puts a template in its own place. It may name a server now.
    pub(crate) fn put_template<W: Whole>(&mut self, before: &Template, after: &Template)
        requires sound { IsSound W.whole self.old }
        requires gives { Gives self.old before.now }
        requires names { IsTemplateUpdate before.now after.now }
        ensures state { state_of W.whole self.new ≡ record (state_of W.whole self.old) { templates = put_template after.now (state_of W.whole self.old).templates } }
        ensures sound { IsSound W.whole self.new }
        ensures gives { Gives self.new after.now }
        ensures spare { self.new.templates.spare ≡ self.old.templates.spare }
        ensures rest { self.new ≡ record self.old { dests = self.new.dests; templates = self.new.templates } }
    {
        let _ = self.templates.put(*after);
        hold_server(&mut self.dests, newly_held(before, after));
    }
}
