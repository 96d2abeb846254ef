//! Units of length, by their names (CSS Values 4, sections 6.1 and 6.2; CSS Conditional 5, section
//! 7).
ghost use Rattle.css_tokens.specs.Words.{is_ascii_word};
ghost use Rattle.std.specs.List.{list_all};
ghost use Rattle.std.specs.Map.{lookup};
ghost use Rattle.std.specs.Prelude.{◌≡◌, IsTrue, map};
ghost use Rattle.std.specs.Str.{str_eq_ignore_ascii_case};
ghost use Rattle.value_model.specs.Lengths as lengths;

use crate::words::find_word;
use port_core::Text;
use value_model::{LengthBase, LengthUnit};

/// What a unit refers to, and the numerator and the denominator of which quotient of it.
type UnitRow = (LengthBase, u16, u16);

/// The unit of this name, in any case.
pub(crate) fn unit_of(name: &Text) -> Option<LengthUnit>
    ensures { result ≡ lengths.unit_of name.now }
{
    find_unit(name, &UNITS)
}

fn find_unit(name: &Text, table: &[(&str, UnitRow)]) -> Option<LengthUnit>
    requires { IsTrue (list_all (λ row. is_ascii_word row.0.now) table.now) }
    ensures { result ≡ lookup (str_eq_ignore_ascii_case name.now)
        (map (λ row. (row.0.now, lengths.unit row.1.0 row.1.1 row.1.2)) table.now) }
{
    let (base, numerator, denominator) = find_word(name, table)?;
    Some(LengthUnit {
        base,
        numerator,
        denominator,
    })
}

/// The units, by their names.
const UNITS: [(&str, UnitRow); 29] = [
    ("px", (LengthBase::Pixel, 1, 1)),
    ("pc", (LengthBase::Pixel, 16, 1)),
    ("in", (LengthBase::Pixel, 96, 1)),
    ("pt", (LengthBase::Pixel, 96, 72)),
    ("cm", (LengthBase::Pixel, 9_600, 254)),
    ("mm", (LengthBase::Pixel, 960, 254)),
    ("q", (LengthBase::Pixel, 240, 254)),
    ("em", (LengthBase::Em, 1, 1)),
    ("ex", (LengthBase::Em, 1, 2)),
    ("ch", (LengthBase::Em, 1, 2)),
    ("rem", (LengthBase::Rem, 1, 1)),
    ("vw", (LengthBase::Vw, 1, 100)),
    ("vi", (LengthBase::Vw, 1, 100)),
    ("svw", (LengthBase::Vw, 1, 100)),
    ("lvw", (LengthBase::Vw, 1, 100)),
    ("dvw", (LengthBase::Vw, 1, 100)),
    ("vh", (LengthBase::Vh, 1, 100)),
    ("vb", (LengthBase::Vh, 1, 100)),
    ("svh", (LengthBase::Vh, 1, 100)),
    ("lvh", (LengthBase::Vh, 1, 100)),
    ("dvh", (LengthBase::Vh, 1, 100)),
    ("vmin", (LengthBase::Vmin, 1, 100)),
    ("vmax", (LengthBase::Vmax, 1, 100)),
    ("cqw", (LengthBase::Cqw, 1, 100)),
    ("cqi", (LengthBase::Cqw, 1, 100)),
    ("cqh", (LengthBase::Cqh, 1, 100)),
    ("cqb", (LengthBase::Cqh, 1, 100)),
    ("cqmin", (LengthBase::Cqmin, 1, 100)),
    ("cqmax", (LengthBase::Cqmax, 1, 100)),
];
