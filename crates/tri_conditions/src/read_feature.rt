//! What knows features (Media Queries 4, section 2.4).
ghost use Rattle.css_tokens.specs.Nested.{component_view};
ghost use Rattle.std.specs.Prelude.{◌≡◌, IfOk};

use css_tokens::Component;
use port_core::NoMemory;
use std::alloc::Global;

/// Knows which component values are features, and which ones.
pub trait ReadFeature<Q> {
    ghost use Rattle.css_model.specs.Components.{Component};
    ghost use Rattle.std.specs.Prelude.{Option};

    /// Which component value is which feature.
    ghost reads: { Self → Component → Option Q };

    /// Returns the feature that `c` is, if it is one. Fails only if memory runs out.
    fn read(&self, alloc: Global, c: &Component) -> Result<Option<Q>, NoMemory>
        ensures { IfOk result (λ q. q ≡ reads self.now (component_view c.now)) };
}
