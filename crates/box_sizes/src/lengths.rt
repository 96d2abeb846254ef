//! Computed values as lengths of boxes.
ghost use Rattle.box_sizes.specs.StyleValues.{values_of};
ghost use Rattle.flow_model.specs.UsedLengths as lengths;
ghost use Rattle.prop_table.specs.Views.{final_view};
ghost use Rattle.query_units.specs.Views.{computed_view};
ghost use Rattle.std.specs.Prelude.{◌≡◌, pos};
ghost use Rattle.units64.specs.Limits.{FitsUnits};
ghost use Rattle.value_model.specs.declared.prop.Prop.TheVariants.{BoxSizing};

use prop_table::{Final, Style};
use query_units::Computed;
use units64::{Units, to_units};
use value_model::{Keyword, Prop};

/// A length of 0.
pub(crate) fn zero() -> Units
    ensures { result ≡ pos 0 }
{
    Units::new(0)
}

/// The number, or 0.
pub(crate) fn or_zero(n: Option<Units>) -> Units
    ensures { result ≡ lengths.or_zero n }
{
    match n {
        Some(n) => n,
        None => zero(),
    }
}

/// The number, or 0 where it is negative.
pub(crate) fn not_below_zero(n: Units) -> Units
    ensures { result ≡ lengths.not_below_zero n }
{
    if n.get() < 0 { zero() } else { n }
}

/// The number of units, in which sums are exact.
pub(crate) fn wide(n: Units) -> i64
    ensures number { result ≡ n }
    ensures fits { FitsUnits result }
{
    n.get() as i64
}

/// The number, or 0 where it is negative.
pub(crate) fn at_least_zero(n: i64) -> i64
    ensures { result ≡ lengths.not_below_zero n }
{
    if n < 0 { 0 } else { n }
}

// ---- computed lengths

/// What a length without a percentage is by itself.
pub(crate) fn fixed_length(l: &Computed) -> Option<Units>
    ensures { result ≡ lengths.fixed_length (computed_view l.now) }
{
    match l {
        Computed::Units(n) => Some(*n),
        _ => None,
    }
}

/// The used length where percentages refer to `base`.
pub(crate) fn used_in(base: Units, l: &Computed) -> Units
    ensures { result ≡ lengths.used_in base (computed_view l.now) }
{
    to_units(l.used(base))
}

/// What a value is by itself, if it is a length without a percentage.
pub(crate) fn fixed_value(v: &Final) -> Option<Units>
    ensures { result ≡ lengths.fixed (final_view v.now) }
{
    match v {
        Final::Length(l) => fixed_length(l),
        _ => None,
    }
}

/// The used length of a value, if it is one.
pub(crate) fn used_value(base: Units, v: &Final) -> Option<Units>
    ensures { result ≡ lengths.used base (final_view v.now) }
{
    match v {
        Final::Length(l) => Some(used_in(base, l)),
        _ => None,
    }
}

// ---- values of a style

/// The value of `prop`.
pub(crate) fn value(s: &Style, prop: Prop) -> &Final
    ensures { final_view result.now ≡ values_of s.now prop }
{
    s.get(prop)
}

/// What `prop` is by itself, if it is a length without a percentage.
pub(crate) fn fixed(s: &Style, prop: Prop) -> Option<Units>
    ensures { result ≡ lengths.fixed (values_of s.now prop) }
{
    fixed_value(value(s, prop))
}

/// The used length of `prop`, if it is one.
pub(crate) fn used(base: Units, s: &Style, prop: Prop) -> Option<Units>
    ensures { result ≡ lengths.used base (values_of s.now prop) }
{
    used_value(base, value(s, prop))
}

/// Whether a value is `border-box`.
fn is_border_box_value(v: &Final) -> bool
    ensures { result ≡ lengths.is_border_box (final_view v.now) }
{
    match v {
        Final::Keyword(Keyword::BorderBox) => true,
        _ => false,
    }
}

/// Whether sizes are those of the border box.
pub(crate) fn is_border_box(s: &Style) -> bool
    ensures { result ≡ lengths.is_border_box (values_of s.now BoxSizing) }
{
    is_border_box_value(value(s, Prop::BoxSizing))
}
