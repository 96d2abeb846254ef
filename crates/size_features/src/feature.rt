//! Features of a size, as they are written (Media Queries 4, section 2.4).
use crate::bound::Bound;
use conditions_model::{FeatureName, Orientation};
use std::marker::Model;

/// In which form a feature is written.
#[derive(Debug, Drop)]
pub enum Form {
    /// `(f)`.
    Boolean(FeatureName),
    /// `(orientation: v)`.
    Orientation(Orientation),
    /// `(f: v)`, `(f < v)` or `(v < f)`.
    OneBound(FeatureName, Bound),
    /// `(v < f < v)`.
    TwoBounds(FeatureName, Bound, Bound),
}

/// A feature of a size, with what it asks for.
#[derive(Debug, Drop)]
pub struct SizeFeature {
    pub(crate) form: Form,
}

impl Model for SizeFeature {
    ghost use Rattle.conditions_model.specs.SizeFeatures as model;
    ghost use Rattle.size_features.specs.Views.{form_view};
    ghost use Rattle.conditions_model.specs.FeatureCode.{coded_feature};

    ghost Value = { model.SizeFeature };

    ghost coded = { coded_feature };

    ghost view = { λ f. form_view f.form };
}
