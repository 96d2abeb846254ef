//! Literal lengths and percentages (CSS Values 4, sections 5 and 6).
ghost use Rattle.value_parts.specs.Views.{is_dimension, literal_view};
ghost use Rattle.std.specs.Prelude.{◌≡◌, IsTrue};
ghost use Rattle.value_model.specs.Lengths as lengths;

use crate::bases::{bases_of_unit, no_bases};
use crate::values::dimension_value;
use units64::Fixed6;
use value_model::{Bases, LengthUnit, UnitSet};

/// A literal length or percentage.
#[derive(Clone, Copy, Debug, PartialEq, Eq)]
pub enum Literal {
    /// So many of a unit.
    Dimension(Fixed6, LengthUnit),
    /// So many percent.
    Percentage(Fixed6),
}

impl Literal {
    /// Returns the value of a length in millionths of a pixel, where `b` is what it refers to. A
    /// percentage has none.
    pub fn value(&self, b: &Bases) -> Fixed6
        requires { IsTrue (is_dimension (literal_view self.now)) }
        ensures { result ≡ lengths.length_value b.now (literal_view self.now) }
    {
        match self {
            Literal::Dimension(number, unit) => dimension_value(b, *number, *unit),
            Literal::Percentage(_) => Fixed6::new(0),
        }
    }

    /// Returns the bases on which the length depends.
    pub fn mentions(&self) -> UnitSet
        ensures { result ≡ lengths.mentioned (literal_view self.now) }
    {
        match self {
            Literal::Dimension(_, unit) => bases_of_unit(unit.base),
            Literal::Percentage(_) => no_bases(),
        }
    }

    /// Returns whether the number is below 0.
    pub fn is_negative(&self) -> bool
        ensures { result ≡ lengths.is_negative (literal_view self.now) }
    {
        match self {
            Literal::Dimension(number, _) | Literal::Percentage(number) => number.get() < 0,
        }
    }
}
