ghost use Rattle.page_model.specs.Jsonml.{attributes_of, with_member};
ghost use Rattle.serde_json.specs.View.{view, members_view};
ghost use Rattle.jsonml_reader.specs.Reading.{Reads};

use crate::fault::TreeFault;
use dom_arena::Attrs;
use serde_json::{Map, Value};
use std::alloc::Global;

/// Reads an object's members as attributes, which stand in the order of their names.
pub(crate) fn read_attributes(
    alloc: Global,
    members: &Map<String, Value>,
) -> Result<Attrs, TreeFault>
    ensures { Reads (λ attributes. attributes) result (attributes_of (members_view members.now.entries)) }
{
    let mut attributes = Attrs::new(alloc);
    for (name, value) in members {
        set_member(alloc, &mut attributes, name.as_str(), value)?;
    }
    Ok(attributes)
}

/// Sets a member as an attribute, whose value is a string.
fn set_member(
    alloc: Global,
    attributes: &mut Attrs,
    name: &str,
    value: &Value,
) -> Result<(), TreeFault>
    ensures { Reads (λ _. attributes.new) result (with_member attributes.old name.now (view value.now)) }
{
    let Some(text) = value.as_str() else {
        return Err(TreeFault::Shape);
    };
    attributes.set(alloc, name, text)?;
    Ok(())
}
