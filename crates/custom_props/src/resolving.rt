//! The environment of an element (CSS Custom Properties 1, sections 2 and 3.1).
ghost use Rattle.custom_model.specs.Environments.{IsEnvironment};
ghost use Rattle.custom_props.specs.EnvView.{env_view};
ghost use Rattle.std.specs.Prelude.{IfOk};

use crate::env::{Declared, Env};
use crate::merging::env_of;
use crate::table::entries_of_declared;
use port_core::NoMemory;
use std::alloc::Global;

/// Returns the environment of an element, which is its custom properties with their computed values, by
/// those that it declares and the environment of its parent.
///
/// The time grows with the references, but for names that refer to a name on a cycle: each of them
/// may cost a walk over all references.
pub fn resolve_env(alloc: Global, declared: &Declared, inherited: &Env) -> Result<Env, NoMemory>
    ensures environment { IfOk result (λ env. IsEnvironment
        (record { declared = env_view declared.now; inherited = env_view inherited.now })
        (env_view env)) }
{
    let entries = entries_of_declared(alloc, declared, inherited)?;
    env_of(alloc, declared, entries.as_slice(), inherited)
}
