//! What knows the values of features (Media Queries 4, section 3.1).
ghost use Rattle.std.specs.Prelude.{◌≡◌};

use conditions_model::Tri;

/// Knows the value of each feature.
pub trait Judge<Q> {
    ghost use Rattle.conditions_model.specs.declared.tri.Tri.{Tri};

    /// The value of each feature.
    ghost judges: { Self → Q → Tri };

    /// Returns the value of the feature `q`.
    fn judge(&self, q: &Q) -> Tri
        ensures { result ≡ judges self.now q.now };
}
