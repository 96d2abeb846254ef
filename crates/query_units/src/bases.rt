//! The bases on which lengths depend (CSS Values 4, section 6.1; CSS Conditional 5, section 7).
ghost use Rattle.value_model.specs.Calculations as model;
ghost use Rattle.std.specs.Prelude.{◌≡◌};

use value_model::UnitSet;

/// No base.
pub(crate) fn no_bases() -> UnitSet
    ensures { result ≡ model.no_bases }
{
    UnitSet {
        em: false,
        rem: false,
        vw: false,
        vh: false,
        cqw: false,
        cqh: false,
    }
}

/// The bases of either.
pub(crate) fn union_of_bases(s: UnitSet, t: UnitSet) -> UnitSet
    ensures { result ≡ model.union_of_bases s t }
{
    UnitSet {
        em: s.em || t.em,
        rem: s.rem || t.rem,
        vw: s.vw || t.vw,
        vh: s.vh || t.vh,
        cqw: s.cqw || t.cqw,
        cqh: s.cqh || t.cqh,
    }
}
