//! Look-ups, counts and edits of the templates.
ghost use Rattle.std.specs.Prelude.{◌≡◌, ◌≤◌, length, vec_len, vec_capacity};
ghost use Rattle.std.specs.List.{find, filter, position};
ghost use Rattle.lvs_types.specs.declared.template.Template.{Template};
ghost use Rattle.lvs_model.specs.Lists.{without};
ghost use Rattle.lvs_model.specs.Lookups.{template_at, template_of_id, has_template_id, has_template_key};
ghost use Rattle.lvs_model.specs.Binding.{put_template};
ghost use Rattle.lvs_model.specs.Counts.{template_count};

use lvs_types::{DestId, Template, TemplateId, TemplateKey};

/// The template of a key.
pub(crate) fn find_key(templates: &[Template], key: &TemplateKey) -> Option<Template>
    ensures { result ≡ template_at key.now templates.now }
{
    for t in templates {
        if t.key == *key {
            return Some(*t);
        }
    }
    None
}

/// The template of an id.
pub(crate) fn get_template(templates: &[Template], id: TemplateId) -> Option<Template>
    ensures { result ≡ template_of_id id templates.now }
{
    for t in templates {
        if t.id == id {
            return Some(*t);
        }
    }
    None
}

/// How many templates name the server.
pub(crate) fn count_naming(templates: &[Template], id: DestId) -> u64
    ensures value { result ≡ template_count id templates.now }
    ensures bound { result ≤ length templates.now }
{
    templates.iter().filter(|t| t.server == Some(id)).count() as u64
}

fn place_of(templates: &[Template], id: TemplateId) -> Option<usize>
    ensures { result ≡ position (has_template_id id) templates.now }
{
    templates.iter().position(|t| t.id == id)
}

/// Puts a template in the place of the one of its id.
pub(crate) fn put(templates: &mut [Template], template: Template)
    ensures { templates.new ≡ put_template template templates.old }
{
    if let Some(place) = place_of(templates, template.id) {
        templates[place] = template;
    }
}

/// Takes out the template of a key.
pub(crate) fn remove(templates: &mut Vec<Template>, key: &TemplateKey)
    ensures items { templates.new.items ≡ without (has_template_key key.now) templates.old.items }
    ensures bound { vec_len templates.new ≤ vec_len templates.old }
    ensures capacity { vec_capacity templates.new ≡ vec_capacity templates.old }
{
    let key = *key;
    templates.retain(|t| t.key != key);
}
