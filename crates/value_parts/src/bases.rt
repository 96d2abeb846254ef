//! What lengths refer to (CSS Values 4, sections 6.1 and 6.2; CSS Conditional 5, section 7).
ghost use Rattle.std.specs.Prelude.{◌≡◌};
ghost use Rattle.units64.specs.Conversions.{millionths_of};
ghost use Rattle.value_model.specs.Lengths as lengths;

use units64::{MILLIONTHS_PER_UNIT, UNITS_PER_PIXEL, Units};
use value_model::{Bases, LengthBase, UnitSet};

/// The length that a unit refers to.
pub(crate) fn base_length(b: &Bases, base: LengthBase) -> Units
    ensures { result ≡ lengths.base_length b.now base }
{
    match base {
        LengthBase::Pixel => Units::new(UNITS_PER_PIXEL),
        LengthBase::Em => b.em,
        LengthBase::Rem => b.rem,
        LengthBase::Vw => b.vw,
        LengthBase::Vh => b.vh,
        LengthBase::Vmin => b.vw.min(b.vh),
        LengthBase::Vmax => b.vw.max(b.vh),
        LengthBase::Cqw => b.cqw,
        LengthBase::Cqh => b.cqh,
        LengthBase::Cqmin => b.cqw.min(b.cqh),
        LengthBase::Cqmax => b.cqw.max(b.cqh),
    }
}

/// The millionths of a pixel that a length is.
pub(crate) fn millionths(length: Units) -> i64
    ensures { result ≡ millionths_of length }
{
    length.get() as i64 * MILLIONTHS_PER_UNIT
}

/// No base.
const NOTHING: UnitSet = UnitSet {
    em: false,
    rem: false,
    vw: false,
    vh: false,
    cqw: false,
    cqh: false,
};

/// The bases on which the length of a unit depends.
pub(crate) fn bases_of_unit(base: LengthBase) -> UnitSet
    ensures { result ≡ lengths.bases_of_unit base }
{
    match base {
        LengthBase::Pixel => NOTHING,
        LengthBase::Em => UnitSet {
            em: true,
            ..NOTHING
        },
        LengthBase::Rem => UnitSet {
            rem: true,
            ..NOTHING
        },
        LengthBase::Vw => UnitSet {
            vw: true,
            ..NOTHING
        },
        LengthBase::Vh => UnitSet {
            vh: true,
            ..NOTHING
        },
        LengthBase::Vmin | LengthBase::Vmax => UnitSet {
            vw: true,
            vh: true,
            ..NOTHING
        },
        LengthBase::Cqw => UnitSet {
            cqw: true,
            ..NOTHING
        },
        LengthBase::Cqh => UnitSet {
            cqh: true,
            ..NOTHING
        },
        LengthBase::Cqmin | LengthBase::Cqmax => UnitSet {
            cqw: true,
            cqh: true,
            ..NOTHING
        },
    }
}

/// No base.
pub(crate) fn no_bases() -> UnitSet
    ensures { result ≡ lengths.bases_of_unit LengthBase.Pixel }
{
    NOTHING
}
