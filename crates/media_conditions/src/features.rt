//! Features of `@media` (Media Queries 4, section 4): read from component values, and judged on a
//! viewport.
ghost use Rattle.conditions_model.specs.FeatureValues.{feature_value};
ghost use Rattle.conditions_model.specs.MediaQueries.{initial_font_size, measured_viewport, media_names};
ghost use Rattle.conditions_model.specs.SizeFeatures.{size_feature};
ghost use Rattle.page_model.specs.declared.limits.TheConstants.{MAX_SIDE};
ghost use Rattle.size_features.specs.Views.{measured_view};
ghost use Rattle.std.specs.Prelude.{◌≡◌, ◌*ℤ◌, ◌≤◌, pos};
ghost use Rattle.units64.specs.declared.constants.TheConstants.{UNITS_PER_PIXEL};

use conditions_model::Tri;
use css_tokens::Component;
use page_model::Viewport;
use port_core::NoMemory;
use size_features::{FeatureNames, Measured, SizeFeature, feature_holds, read_size_feature};
use std::alloc::Global;
use tri_conditions::{Judge, ReadFeature};
use units64::{UNITS_PER_PIXEL, Units};
use value_model::Bases;

/// Knows the features of `@media`.
pub(crate) struct MediaFeatures;

impl ReadFeature<SizeFeature> for MediaFeatures {
    ghost reads = { λ _. λ c. size_feature media_names c };

    fn read(&self, alloc: Global, c: &Component) -> Result<Option<SizeFeature>, NoMemory> {
        read_size_feature(alloc, FeatureNames::Media, c)
    }
}

/// Knows the values of features on a viewport.
#[derive(Drop)]
pub(crate) struct ViewportJudge {
    /// The viewport.
    pub viewport: Viewport,
    /// Its sides.
    pub measured: Measured,
    ghost agrees: { measured_view measured ≡ measured_viewport viewport },
}

impl Judge<SizeFeature> for ViewportJudge {
    ghost judges = { λ j. λ f. feature_value (measured_viewport j.viewport) f };

    fn judge(&self, f: &SizeFeature) -> Tri {
        if feature_holds(&self.measured, f) {
            Tri::Yes
        } else {
            Tri::No
        }
    }
}

/// The judge of features on `v`.
pub(crate) fn judge_on(v: Viewport) -> ViewportJudge
    requires width { v.width ≤ MAX_SIDE }
    requires height { v.height ≤ MAX_SIDE }
    ensures { result.viewport ≡ v }
{
    let width = in_units(v.width);
    let height = in_units(v.height);
    let font_size = Units::new(16 * UNITS_PER_PIXEL);
    let bases = Bases {
        em: font_size,
        rem: font_size,
        vw: width,
        vh: height,
        cqw: width,
        cqh: height,
    };
    let measured = Measured {
        width,
        height,
        bases,
    };
    ViewportJudge {
        viewport: v,
        measured,
    }
}

/// A side of a viewport, in units.
fn in_units(pixels: u64) -> Units
    requires { pixels ≤ MAX_SIDE }
    ensures { result ≡ pos pixels *ℤ UNITS_PER_PIXEL }
{
    Units::new(pixels as i64 * UNITS_PER_PIXEL)
}
