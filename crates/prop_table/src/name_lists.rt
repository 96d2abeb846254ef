//! Lists of names.
ghost use Rattle.std.specs.Prelude.{◌≡◌, ◌↔◌, IfOk, IsTrue};

use port_core::{NoMemory, Seq, Text};
use std::alloc::Global;

/// A copy of `names`.
pub(crate) fn copy_names(alloc: Global, names: &Seq<Text>) -> Result<Seq<Text>, NoMemory>
    ensures { IfOk result (λ copy. copy ≡ names.now) }
{
    let mut copy = Seq::new(alloc);
    for name in names.as_slice() {
        copy.push(name.copy(alloc)?)?;
    }
    Ok(copy)
}

/// Whether both have the same names in the same order.
pub(crate) fn same_names(a: &Seq<Text>, b: &Seq<Text>) -> bool
    ensures { IsTrue result ↔ (a.now ≡ b.now) }
{
    are_same(a.as_slice(), b.as_slice())
}

fn are_same(a: &[Text], b: &[Text]) -> bool
    ensures { IsTrue result ↔ (a.now ≡ b.now) }
{
    if a.len() != b.len() {
        return false;
    }
    for place in 0..a.len() {
        if !a[place].same(&b[place]) {
            return false;
        }
    }
    true
}
