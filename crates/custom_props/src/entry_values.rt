//! The entry of a declared value (CSS Custom Properties 1, sections 2 and 3.1; CSS Cascade 4, section
//! 7.3). `parent` is the entry of the parent.
ghost use Rattle.css_tokens.specs.Nested.{components_view};
ghost use Rattle.custom_model.specs.Environments as model;
ghost use Rattle.custom_props.specs.Views.{substituted_view};
ghost use Rattle.custom_props.specs.inner.Entries.{entries_of};
ghost use Rattle.custom_props.specs.inner.EntryViews.{entry_view};
ghost use Rattle.std.specs.Prelude.{◌≡◌, IfOk};

use crate::entry::{Entry, copy_of_entry};
use crate::known::Known;
use crate::substituted::Substituted;
use crate::substitution::substitute_known;
use crate::values::has_var_in;
use css_tokens::Components;
use port_core::NoMemory;
use std::alloc::Global;
use std::rc::Rc;
use value_model::WideKeyword;
use value_parts::wide_keyword_of;

/// What a CSS-wide keyword stands for.
fn entry_of_keyword(parent: &Entry, keyword: WideKeyword) -> Result<Entry, NoMemory>
    ensures { IfOk result (λ e. entry_view e
        ≡ model.entry_of_keyword (entry_view parent.now) keyword) }
{
    match keyword {
        WideKeyword::Initial => Ok(Entry { value: None }),
        WideKeyword::Inherit | WideKeyword::Unset | WideKeyword::Revert => copy_of_entry(parent),
    }
}

/// The entry of a value after substitution.
fn entry_of_value(parent: &Entry, value: Rc<Components>) -> Result<Entry, NoMemory>
    ensures { IfOk result (λ e. entry_view e
        ≡ model.entry_of_value (entry_view parent.now) (components_view value.value)) }
{
    match wide_keyword_of(value.as_slice()) {
        Some(keyword) => entry_of_keyword(parent, keyword),
        None => Ok(Entry { value: Some(value) }),
    }
}

/// The entry of a value by what it is after substitution.
fn entry_of_substituted(
    alloc: Global,
    parent: &Entry,
    substituted: Substituted,
) -> Result<Entry, NoMemory>
    ensures { IfOk result (λ e. entry_view e
        ≡ model.entry_of_substituted (entry_view parent.now) (substituted_view substituted)) }
{
    match substituted {
        Substituted::Value(value) => entry_of_value(parent, shared(alloc, value)?),
        Substituted::Invalid => copy_of_entry(parent),
    }
}

/// A value that may be shared.
fn shared(alloc: Global, value: Components) -> Result<Rc<Components>, NoMemory>
    ensures { IfOk result (λ rc. rc.value ≡ value) }
{
    match Rc::new(alloc, value) {
        Ok(value) => Ok(value),
        Err(_) => Err(NoMemory),
    }
}

/// The entry of a declared value. One without `var()` is shared.
pub(crate) fn entry_of_declared(
    alloc: Global,
    parent: &Entry,
    value: &Rc<Components>,
    known: &Known<'_>,
) -> Result<Entry, NoMemory>
    ensures { IfOk result (λ e. entry_view e
        ≡ model.entry_of_declared (entries_of known.now) (entry_view parent.now)
        (components_view value.now.value)) }
{
    if !has_var_in(value.as_slice()) {
        return entry_of_value(parent, value.clone()?);
    }
    entry_of_substituted(
        alloc,
        parent,
        substitute_known(alloc, value.as_slice(), known)?,
    )
}
