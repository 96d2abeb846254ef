//! The environment of an element (CSS Custom Properties 1, section 2).
ghost use Rattle.cascade_core.specs.StyledView.{styled_view};
ghost use Rattle.custom_model.specs.inner.Finding.{environment_of};
ghost use Rattle.custom_props.specs.EnvView.{env_view};
ghost use Rattle.std.specs.Option.{option_copied, option_map_or};
ghost use Rattle.std.specs.Prelude.{◌≡◌, [], IfOk, option_map};

use crate::shared::shared;
use crate::styled::Styled;
use custom_props::{Declared, Env, resolve_env};
use port_core::NoMemory;
use std::alloc::Global;
use std::rc::Rc;

/// The environment of an element that declares these custom properties. Where there are none it is
/// that of the parent, which is shared.
pub(crate) fn environment<L>(
    alloc: Global,
    declared: &Declared,
    parent: Option<&Styled<L>>,
) -> Result<Rc<Env>, NoMemory>
    ensures { IfOk result (λ env. env_view env.value ≡ environment_of (record {
      declared = env_view declared.now;
      inherited = option_map_or (λ s. s.environment)
          (option_map styled_view (option_copied parent.entry)) [];
    })) }
{
    match parent {
        Some(parent) => environment_below(alloc, declared, &parent.env),
        None => {
            let none = shared(alloc, Env::new(alloc))?;
            environment_below(alloc, declared, &none)
        }
    }
}

/// The same where the parent has this environment.
fn environment_below(
    alloc: Global,
    declared: &Declared,
    inherited: &Rc<Env>,
) -> Result<Rc<Env>, NoMemory>
    ensures { IfOk result (λ env. env_view env.value ≡ environment_of (record {
      declared = env_view declared.now;
      inherited = env_view inherited.now.value;
    })) }
{
    if declared.len() == 0 {
        return Ok(inherited.clone()?);
    }
    shared(alloc, resolve_env(alloc, declared, inherited)?)
}
