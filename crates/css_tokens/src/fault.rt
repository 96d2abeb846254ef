//! Why component values could not be made.
ghost use Rattle.css_tokens.specs.declared.fault.TokenFault.TheVariants.{NoMemory as no_memory};
ghost use Rattle.std.specs.Prelude.{◌≡◌};

use port_core::NoMemory;
use thiserror::Error;

/// Why the component values of tokens could not be made.
#[derive(Debug, Drop, PartialEq, Eq, Error)]
pub enum TokenFault {
    /// There is not enough memory.
    #[error("not enough memory")]
    NoMemory,
    /// Simple blocks and functions nest deeper than `MAX_NESTING`.
    #[error("brackets nest too deep")]
    TooDeep,
}

impl From<NoMemory> for TokenFault {
    ghost from_gives = { λ _ e. e ≡ no_memory };

    fn from(_e: NoMemory) -> TokenFault {
        TokenFault::NoMemory
    }
}
