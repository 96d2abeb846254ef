//! What is read of names with values.
ghost use Rattle.css_tokens.specs.Nested.{components_view};
ghost use Rattle.custom_model.specs.NamedValues.{names_of};
ghost use Rattle.custom_props.specs.EnvView.{env_view};
ghost use Rattle.std.specs.Option.{option_copied};
ghost use Rattle.std.specs.Prelude.{◌≡◌, [], length, option_map, slice_get};
ghost use Rattle.std.specs.Str.{chars};

use crate::env::Env;
use css_tokens::Components;
use port_core::Seq;
use std::alloc::Global;

impl Env {
    /// Returns no names.
    pub fn new(alloc: Global) -> Env
        ensures { env_view result ≡ [] }
    {
        Env {
            values: Seq::new(alloc),
        }
    }

    /// Returns how many names there are.
    pub fn len(&self) -> usize
        ensures { result ≡ length (env_view self.now) }
    {
        self.values.len()
    }

    /// Returns the name in place `i`.
    pub fn name_at(&self, i: usize) -> Option<&str>
        ensures { option_map (λ s. chars s.now) result ≡ slice_get (names_of (env_view self.now)) i }
    {
        Some(self.values.get(i)?.name.as_str())
    }

    /// Returns the value of the name in place `i`.
    pub fn value_at(&self, i: usize) -> Option<&Components>
        ensures { option_map components_view (option_copied result)
            ≡ option_map (λ v. v.1) (slice_get (env_view self.now) i) }
    {
        Some(&*self.values.get(i)?.value)
    }
}
