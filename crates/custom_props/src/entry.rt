//! The entry of a name (CSS Custom Properties 1, section 2).
ghost use Rattle.custom_props.specs.inner.EntryViews.{entry_view};
ghost use Rattle.std.specs.Prelude.{◌≡◌, IfOk};

use css_tokens::Components;
use port_core::NoMemory;
use std::rc::Rc;

/// What stands for a name, if anything does.
#[derive(Drop)]
pub(crate) struct Entry {
    /// The value, which may be shared.
    pub(crate) value: Option<Rc<Components>>,
}

/// The same entry once more.
pub(crate) fn copy_of_entry(entry: &Entry) -> Result<Entry, NoMemory>
    ensures { IfOk result (λ copy. entry_view copy ≡ entry_view entry.now) }
{
    let value = match &entry.value {
        Some(value) => Some(value.clone()?),
        None => None,
    };
    Ok(Entry { value })
}
