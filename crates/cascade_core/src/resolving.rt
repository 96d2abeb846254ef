//! The values of an element: its font size first, and then all properties (CSS Cascade 4, section
//! 4.4; CSS Values 4, section 6.1).
ghost use Rattle.cascade_core.specs.Givens.{given_view};
ghost use Rattle.cascade_model.specs.Defaulting as defaulting;
ghost use Rattle.cascade_model.specs.StyleEquation as equation;
ghost use Rattle.prop_table.specs.Styles.{style_view};
ghost use Rattle.prop_table.specs.Views.{final_view};
ghost use Rattle.std.specs.Option.{option_copied};
ghost use Rattle.std.specs.Prelude.{◌≡◌, IfOk, option_map};

use crate::borders::{is_no_border, no_width, style_of_border};
use crate::choices::{Choice, choice_for};
use crate::given::Given;
use port_core::NoMemory;
use prop_table::{Bases, Computed, Final, Keyword, Prop, Style, compute, initial};
use std::alloc::Global;
use units64::Units;

/// What lengths refer to in all properties but `font-size`.
pub(crate) fn own_bases(alloc: Global, g: &Given<'_>) -> Result<Bases, NoMemory>
    ensures { IfOk result (λ own. own ≡ equation.own_bases (given_view g.now)) }
{
    let em = font_size(alloc, g)?;
    match g.parent {
        None => Ok(Bases {
            em,
            rem: em,
            ..g.bases
        }),
        Some(_) => Ok(Bases { em, ..g.bases }),
    }
}

fn font_size(alloc: Global, g: &Given<'_>) -> Result<Units, NoMemory>
    ensures { IfOk result (λ size. size ≡ equation.font_size (given_view g.now)) }
{
    let size = value_of(alloc, g, &g.bases, Prop::FontSize)?;
    Ok(units_of(&size))
}

/// What a length in units is.
fn units_of(value: &Final) -> Units
    ensures { result ≡ defaulting.units_of_final (final_view value.now) }
{
    match value {
        Final::Length(Computed::Units(units)) => *units,
        _ => Units::new(0),
    }
}

/// The value of a property; the root is a block (CSS 2.1, section 9.7).
pub(crate) fn final_value(
    alloc: Global,
    g: &Given<'_>,
    own: &Bases,
    prop: Prop,
) -> Result<Final, NoMemory>
    requires { own.now ≡ equation.own_bases (given_view g.now) }
    ensures { IfOk result (λ f. final_view f ≡ equation.final_value (given_view g.now) prop) }
{
    let value = bordered_value(alloc, g, own, prop)?;
    match g.parent {
        None => Ok(root_value(prop, value)),
        Some(_) => Ok(value),
    }
}

fn root_value(prop: Prop, value: Final) -> Final
    ensures { final_view result ≡ defaulting.root_value prop (final_view value) }
{
    match prop {
        Prop::Display => blockified(value),
        _ => value,
    }
}

fn blockified(display: Final) -> Final
    ensures { final_view result ≡ defaulting.blockified (final_view display) }
{
    match display {
        Final::Keyword(Keyword::Inline | Keyword::InlineBlock) => Final::Keyword(Keyword::Block),
        _ => display,
    }
}

/// The value of a property; a border without a style has no width (CSS Backgrounds 3, section 3.3).
fn bordered_value(alloc: Global, g: &Given<'_>, own: &Bases, prop: Prop) -> Result<Final, NoMemory>
    requires { own.now ≡ equation.own_bases (given_view g.now) }
    ensures { IfOk result (λ f. final_view f ≡ equation.bordered_value (given_view g.now) prop) }
{
    match style_of_border(prop) {
        None => own_value(alloc, g, own, prop),
        Some(style) => {
            let style = own_value(alloc, g, own, style)?;
            if is_no_border(&style) {
                Ok(no_width())
            } else {
                own_value(alloc, g, own, prop)
            }
        }
    }
}

/// The value of a property by itself.
fn own_value(alloc: Global, g: &Given<'_>, own: &Bases, prop: Prop) -> Result<Final, NoMemory>
    requires { own.now ≡ equation.own_bases (given_view g.now) }
    ensures { IfOk result (λ f. final_view f ≡ equation.own_value (given_view g.now) prop) }
{
    match prop {
        Prop::FontSize => value_of(alloc, g, &g.bases, prop),
        _ => value_of(alloc, g, own, prop),
    }
}

/// The value of a property, where lengths refer to `b`.
fn value_of(alloc: Global, g: &Given<'_>, b: &Bases, prop: Prop) -> Result<Final, NoMemory>
    ensures { IfOk result (λ f. final_view f
        ≡ defaulting.value_of_property (given_view g.now).winners (given_view g.now).parent b.now
        g.now.bases.em prop) }
{
    match choice_for(g, prop) {
        Choice::Inherited => inherited(alloc, g.parent, prop),
        Choice::Initial => Ok(initial(alloc, prop)),
        Choice::Declared(value) => compute(alloc, prop, value, b, g.bases.em),
    }
}

/// The value of the parent, or the initial one for the root.
#[tactic(auto, using(crate::proofs::ValueIn::value_there))]
fn inherited(alloc: Global, parent: Option<&Style>, prop: Prop) -> Result<Final, NoMemory>
    ensures { IfOk result (λ f. final_view f
        ≡ defaulting.inherited_value (option_map style_view (option_copied parent.entry)) prop) }
{
    match parent {
        None => Ok(initial(alloc, prop)),
        Some(parent) => parent.get(prop).copy(alloc),
    }
}
