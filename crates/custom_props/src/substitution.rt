//! Values with `var()` replaced (CSS Custom Properties 1, sections 3, 3.1 and 3.3).
ghost use Rattle.css_tokens.specs.Nested.{components_view};
ghost use Rattle.custom_model.specs.NamedValues.{value_named};
ghost use Rattle.custom_model.specs.Substitution as model;
ghost use Rattle.custom_props.specs.EnvView.{env_view};
ghost use Rattle.custom_props.specs.Views.{substituted_view};
ghost use Rattle.custom_props.specs.inner.Entries.{entries_of};
ghost use Rattle.std.specs.Prelude.{◌≡◌, IfOk};

use crate::copies::copy_of;
use crate::env::Env;
use crate::known::Known;
use crate::measuring::room_after_from;
use crate::replacing::replaced;
use crate::substituted::Substituted;
use crate::values::has_var_in;
use css_model::MAX_NESTING;
use css_tokens::{Component, Components};
use custom_model::MAX_SUBSTITUTED_TOKENS;
use port_core::NoMemory;
use std::alloc::Global;

/// Returns `value` after substitution, where each `var()` is replaced by the entry of `env` of its name,
/// or else by its fallback.
///
/// A value with `var()` is invalid if there is neither, or if it is above the limits of tokens and of
/// nesting after substitution; that is found before it is made.
pub fn substitute(alloc: Global, value: &Components, env: &Env) -> Result<Substituted, NoMemory>
    ensures { IfOk result (λ s. substituted_view s
        ≡ model.substituted (value_named (env_view env.now)) (components_view value.now)) }
{
    let known = Known {
        declared: &[],
        table: &[],
        inherited: env.values.as_slice(),
    };
    substitute_known(alloc, value.as_slice(), &known)
}

/// A value after substitution by the entries that are known.
pub(crate) fn substitute_known(
    alloc: Global,
    value: &[Component],
    known: &Known<'_>,
) -> Result<Substituted, NoMemory>
    ensures { IfOk result (λ s. substituted_view s
        ≡ model.substituted (entries_of known.now) (components_view value.now)) }
{
    if !has_var_in(value) {
        return Ok(Substituted::Value(copy_of(alloc, value)?));
    }
    match room_after_from(value, 0, known, MAX_SUBSTITUTED_TOKENS, MAX_NESTING) {
        Some(_) => substitute_within(alloc, value, known),
        None => Ok(Substituted::Invalid),
    }
}

/// The same for a value that is within the limits.
fn substitute_within(
    alloc: Global,
    value: &[Component],
    known: &Known<'_>,
) -> Result<Substituted, NoMemory>
    ensures { IfOk result (λ s. substituted_view s
        ≡ model.replacement_of_all (entries_of known.now) (components_view value.now)) }
{
    match replaced(alloc, value, known)? {
        Some(value) => Ok(Substituted::Value(value)),
        None => Ok(Substituted::Invalid),
    }
}
