//! Names of features (Media Queries 4, sections 2.4 and 4).
ghost use Rattle.conditions_model.specs.SizeFeatures as model;
ghost use Rattle.css_tokens.specs.Nested.{component_view};
ghost use Rattle.rules_model.specs.ComponentLists as lists;
ghost use Rattle.size_features.specs.Views.{names_of};
ghost use Rattle.std.specs.Prelude.{◌≡◌, option_and_then};

use conditions_model::{Comparison, FeatureName};
use css_tokens::Component;
use port_core::Text;
use value_parts::{find_word, ident_of};

/// Which names stand for which features.
#[derive(Clone, Copy, Debug, PartialEq, Eq)]
pub enum FeatureNames {
    /// Those of `@media`.
    Media,
}

/// Features and comparisons of `@media`, by their names in the plain form.
const MEDIA_NAMES: [(&str, (Comparison, FeatureName)); 12] = [
    ("width", (Comparison::EqualTo, FeatureName::Width)),
    ("height", (Comparison::EqualTo, FeatureName::Height)),
    (
        "aspect-ratio",
        (Comparison::EqualTo, FeatureName::AspectRatio),
    ),
    (
        "orientation",
        (Comparison::EqualTo, FeatureName::Orientation),
    ),
    ("min-width", (Comparison::AtLeast, FeatureName::Width)),
    ("min-height", (Comparison::AtLeast, FeatureName::Height)),
    (
        "min-aspect-ratio",
        (Comparison::AtLeast, FeatureName::AspectRatio),
    ),
    (
        "min-orientation",
        (Comparison::AtLeast, FeatureName::Orientation),
    ),
    ("max-width", (Comparison::AtMost, FeatureName::Width)),
    ("max-height", (Comparison::AtMost, FeatureName::Height)),
    (
        "max-aspect-ratio",
        (Comparison::AtMost, FeatureName::AspectRatio),
    ),
    (
        "max-orientation",
        (Comparison::AtMost, FeatureName::Orientation),
    ),
];

/// The features of `@media`.
const MEDIA_FEATURES: [(&str, FeatureName); 4] = [
    ("width", FeatureName::Width),
    ("height", FeatureName::Height),
    ("aspect-ratio", FeatureName::AspectRatio),
    ("orientation", FeatureName::Orientation),
];

/// The feature of this name, in any case.
fn named(names: FeatureNames, name: &Text) -> Option<FeatureName>
    ensures { result ≡ model.named (names_of names) name.now }
{
    match names {
        FeatureNames::Media => find_word(name, &MEDIA_FEATURES),
    }
}

/// The feature of a name in the plain form, with its comparison.
fn plain_name(names: FeatureNames, name: &Text) -> Option<(Comparison, FeatureName)>
    ensures { result ≡ model.plain_name (names_of names) name.now }
{
    match names {
        FeatureNames::Media => find_word(name, &MEDIA_NAMES),
    }
}

/// The feature that a component value names.
pub(crate) fn feature_name(names: FeatureNames, c: &Component) -> Option<FeatureName>
    ensures { result ≡ model.feature_name (names_of names) (component_view c.now) }
{
    let name = ident_of(c)?;
    named(names, name)
}

/// The feature of a component value's name in the plain form, with its comparison.
pub(crate) fn plain_name_of(names: FeatureNames, c: &Component) -> Option<(Comparison, FeatureName)>
    ensures { result ≡ option_and_then (model.plain_name (names_of names))
        (lists.ident_of (component_view c.now)) }
{
    let name = ident_of(c)?;
    plain_name(names, name)
}
