//! Copies of component values.
ghost use Rattle.std.specs.Prelude.{◌≡◌, ◌++◌, IfOk, OnOk};

use css_tokens::{Component, Components, Token};
use port_core::{NoMemory, Seq};
use std::alloc::Global;

/// Returns a copy of component values.
pub fn copy_of(alloc: Global, components: &[Component]) -> Result<Components, NoMemory>
    ensures { IfOk result (λ copy. copy ≡ components.now) }
{
    let mut copy = Seq::from_vec(Vec::with_capacity(alloc, components.len())?);
    append_copy(alloc, components, &mut copy)?;
    Ok(copy)
}

/// Appends copies of component values.
#[cycle(copies)]
pub(crate) fn append_copy(
    alloc: Global,
    components: &[Component],
    copy: &mut Components,
) -> Result<(), NoMemory>
    ensures { OnOk result (copy.new ≡ copy.old ++ components.now) }
{
    for c in components {
        copy.push(copy_one(alloc, c)?)?;
    }
    Ok(())
}

#[cycle(copies)]
fn copy_one(alloc: Global, c: &Component) -> Result<Component, NoMemory>
    ensures { IfOk result (λ copy. copy ≡ c.now) }
{
    match c {
        Component::One(token) => Ok(Component::One(token.copy(alloc)?)),
        Component::Block(head, contents, close) => {
            let mut copy = Seq::new(alloc);
            append_copy(alloc, contents.as_slice(), &mut copy)?;
            Ok(Component::Block(head.copy(alloc)?, copy, copy_close(alloc, close)?))
        }
        Component::Function(head, contents, close) => {
            let mut copy = Seq::new(alloc);
            append_copy(alloc, contents.as_slice(), &mut copy)?;
            Ok(Component::Function(head.copy(alloc)?, copy, copy_close(alloc, close)?))
        }
    }
}

/// Copies the token that closes a bracket, if one does.
pub(crate) fn copy_close(alloc: Global, close: &Option<Token>) -> Result<Option<Token>, NoMemory>
    ensures { IfOk result (λ copy. copy ≡ close.now) }
{
    match close {
        Some(token) => Ok(Some(token.copy(alloc)?)),
        None => Ok(None),
    }
}
