//! Laws of the declaration that wins (CSS Cascade 4, section 6.1).
ghost use Rattle.cascade_laws.specs.Winners.{AreAgreed, AreComparable, ArePlaced, AreRight};

/// Of two declarations in different places just one outranks the other.
pub fn are_ordered()
    ensures { AreComparable }
{}

/// A property has no two winners.
pub fn are_unique()
    ensures { AreAgreed }
{}

/// What is found is the winner.
pub fn are_found()
    ensures { AreRight }
{}

/// Where nothing is found, no declaration is of the property.
pub fn are_none()
    ensures { ArePlaced }
{}
