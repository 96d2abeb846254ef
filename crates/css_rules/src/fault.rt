//! Why a style sheet could not be read.
ghost use Rattle.css_rules.specs.declared.fault.SheetFault.TheVariants.{NoMemory as no_memory};
ghost use Rattle.std.specs.Prelude.{◌≡◌};

use port_core::NoMemory;
use thiserror::Error;

/// Why a style sheet could not be read.
#[derive(Debug, Drop, PartialEq, Eq, Error)]
pub enum SheetFault {
    /// There is not enough memory.
    #[error("not enough memory")]
    NoMemory,
    /// The text has more than `MAX_SHEET_BYTES` bytes.
    #[error("the style sheet is too large")]
    TooLarge,
    /// The sheet has more than `MAX_STYLE_RULES` style rules.
    #[error("the style sheet has too many rules")]
    TooManyRules,
    /// Brackets nest deeper than `MAX_NESTING`.
    #[error("brackets nest too deep")]
    TooDeep,
}

impl From<NoMemory> for SheetFault {
    ghost from_gives = { λ _ e. e ≡ no_memory };

    fn from(_e: NoMemory) -> SheetFault {
        SheetFault::NoMemory
    }
}
