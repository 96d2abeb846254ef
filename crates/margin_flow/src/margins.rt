//! Sets of adjoining margins (CSS 2.1, section 8.3.1).
ghost use Rattle.flow_model.specs.MarginSets as sets;
ghost use Rattle.std.specs.Int.{int_max, int_min};
ghost use Rattle.std.specs.Prelude.{◌≡◌, ◌∷◌, [], pos};

use flow_model::Margins;
use units64::{Units, add};

/// Returns what is seen of two sets of margins as one.
pub fn join(a: Margins, b: Margins) -> Margins
    ensures { result ≡ sets.joined (a ∷ b ∷ []) }
{
    Margins {
        positive: greater(greater(zero(), a.positive), b.positive),
        negative: lesser(lesser(zero(), a.negative), b.negative),
    }
}

/// Returns how wide the margin is that a set collapses to.
pub fn value(a: Margins) -> Units
    ensures { result ≡ sets.collapsed a }
{
    add(a.positive, a.negative)
}

/// The set of one margin.
pub(crate) fn alone(n: Units) -> Margins
    ensures { result ≡ sets.alone n }
{
    Margins {
        positive: greater(zero(), n),
        negative: lesser(zero(), n),
    }
}

/// The set of no margin.
pub(crate) fn empty() -> Margins
    ensures { result ≡ sets.empty }
{
    Margins {
        positive: zero(),
        negative: zero(),
    }
}

/// One set by itself.
pub(crate) fn joined_alone(a: &Margins) -> Margins
    ensures { result ≡ sets.joined (a.now ∷ []) }
{
    Margins {
        positive: greater(zero(), a.positive),
        negative: lesser(zero(), a.negative),
    }
}

/// The same set.
pub(crate) fn same_set(a: &Margins) -> Margins
    ensures { result ≡ a.now }
{
    Margins {
        positive: a.positive,
        negative: a.negative,
    }
}

/// A length of 0.
pub(crate) fn zero() -> Units
    ensures { result ≡ pos 0 }
{
    Units::new(0)
}

fn greater(x: Units, y: Units) -> Units
    ensures { result ≡ int_max x y }
{
    if y.get() < x.get() { x } else { y }
}

fn lesser(x: Units, y: Units) -> Units
    ensures { result ≡ int_min x y }
{
    if y.get() < x.get() { y } else { x }
}
