//! The parts of a style, which may be shared with other styles (CSS Cascade 4, section 4.4).
ghost use Rattle.cascade_core.specs.Givens.{given_view};
ghost use Rattle.cascade_model.specs.StyleEquation as equation;
ghost use Rattle.prop_table.specs.Styles.{style_view};
ghost use Rattle.std.specs.Prelude.{◌≡◌, ◌↔◌, IfOk, IsTrue, length, map};

use crate::given::Given;
use crate::resolving::final_value;
use crate::shared::shared;
use port_core::{NoMemory, Seq};
use prop_table::{Bases, Final, Prop};
use std::alloc::Global;
use std::rc::Rc;

/// The values of some properties: the first of these parts of `others` that has them, or a new one.
#[tactic(auto, using(crate::proofs::PartValues::count_of))]
pub(crate) fn part(
    alloc: Global,
    g: &Given<'_>,
    own: &Bases,
    props: &[Prop],
    others: &[&Rc<Seq<Final>>],
) -> Result<Rc<Seq<Final>>, NoMemory>
    requires { own.now ≡ equation.own_bases (given_view g.now) }
    ensures values { IfOk result (λ part. style_view part.value
        ≡ map (equation.final_value (given_view g.now)) props.now) }
    ensures count { IfOk result (λ part. length part.value ≡ length props.now) }
{
    for other in others {
        let other: &Rc<Seq<Final>> = *other;
        if has_values(alloc, g, own, props, other)? {
            return Ok(other.clone()?);
        }
    }
    new_part(alloc, g, own, props)
}

/// Whether these are the values of these properties. It computes one after another, up to the
/// first that differs.
fn has_values(
    alloc: Global,
    g: &Given<'_>,
    own: &Bases,
    props: &[Prop],
    part: &Seq<Final>,
) -> Result<bool, NoMemory>
    requires { own.now ≡ equation.own_bases (given_view g.now) }
    ensures { IfOk result (λ same. IsTrue same ↔ (style_view part.now
        ≡ map (equation.final_value (given_view g.now)) props.now)) }
{
    if part.len() != props.len() {
        return Ok(false);
    }
    for i in 0..props.len() {
        let value = final_value(alloc, g, own, props[i])?;
        if !part.as_slice()[i].same(&value) {
            return Ok(false);
        }
    }
    Ok(true)
}

/// The values of some properties, in a part of their own.
fn new_part(
    alloc: Global,
    g: &Given<'_>,
    own: &Bases,
    props: &[Prop],
) -> Result<Rc<Seq<Final>>, NoMemory>
    requires { own.now ≡ equation.own_bases (given_view g.now) }
    ensures values { IfOk result (λ part. style_view part.value
        ≡ map (equation.final_value (given_view g.now)) props.now) }
    ensures count { IfOk result (λ part. length part.value ≡ length props.now) }
{
    let mut part = Seq::new(alloc);
    for prop in props {
        part.push(final_value(alloc, g, own, *prop)?)?;
    }
    shared(alloc, part)
}
