//! What lengths refer to in a page without containers (CSS Values 4, section 6.1).
ghost use Rattle.cascade_model.specs.Defaulting.{font_size_in, units_of_final};
ghost use Rattle.cascade_model.specs.DocumentStyles as model;
ghost use Rattle.page_model.specs.declared.limits.TheConstants.{MAX_SIDE};
ghost use Rattle.prop_table.specs.Styles.{style_view};
ghost use Rattle.prop_table.specs.Views.{final_view};
ghost use Rattle.std.specs.Prelude.{◌≡◌, ◌≤◌, ◌*ℤ◌, pos};
ghost use Rattle.units64.specs.declared.constants.TheConstants as constants;

use page_model::Viewport;
use prop_table::{Bases, Computed, Final, Prop, Style};
use units64::{UNITS_PER_PIXEL, Units};

/// The initial font size, in pixels (CSS Fonts 4, section 2.5).
const INITIAL_FONT_SIZE: u64 = 16;

/// Returns the initial font size.
pub(crate) fn initial_font_size() -> Units
    ensures { result ≡ model.initial_font_size }
{
    units_of(INITIAL_FONT_SIZE)
}

/// Returns what lengths refer to, where `em` and `rem` are these font sizes. The units of containers
/// are those of the viewport.
pub(crate) fn bases_in(viewport: Viewport, em: Units, rem: Units) -> Bases
    requires width { viewport.width ≤ MAX_SIDE }
    requires height { viewport.height ≤ MAX_SIDE }
    ensures { result ≡ model.bases_in viewport em rem }
{
    let width = units_of(viewport.width);
    let height = units_of(viewport.height);
    Bases {
        em,
        rem,
        vw: width,
        vh: height,
        cqw: width,
        cqh: height,
    }
}

/// Returns `pixels`, at most 10,000, in units.
fn units_of(pixels: u64) -> Units
    requires { pixels ≤ MAX_SIDE }
    ensures { result ≡ constants.UNITS_PER_PIXEL *ℤ pos pixels }
{
    Units::new(UNITS_PER_PIXEL * pixels as i64)
}

/// Returns the font size of a style.
#[tactic(auto, using(cascade_core::proofs::ValueIn::value_there))]
pub(crate) fn font_size_of(style: &Style) -> Units
    ensures { result ≡ font_size_in (style_view style.now) }
{
    units_of_value(style.get(Prop::FontSize))
}

/// The units of a length in units; another value has none.
fn units_of_value(value: &Final) -> Units
    ensures { result ≡ units_of_final (final_view value.now) }
{
    match value {
        Final::Length(Computed::Units(units)) => *units,
        _ => Units::new(0),
    }
}
