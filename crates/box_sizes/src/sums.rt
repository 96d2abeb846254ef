//! Sums of lengths, exact.
ghost use Rattle.std.specs.Prelude.{◌≡◌, ◌≤ℤ◌, ◌+ℤ◌, ◌-ℤ◌, neg_ℤ, pos};

use crate::lengths::wide;
use units64::Units;

/// Four lengths together.
pub(crate) fn four(a: Units, b: Units, c: Units, d: Units) -> i64
    ensures sum { result ≡ a +ℤ b +ℤ c +ℤ d }
    ensures low { neg_ℤ (pos 4294967296) ≤ℤ result }
    ensures high { result ≤ℤ pos 4294967296 }
{
    wide(a) + wide(b) + wide(c) + wide(d)
}

/// A length, these edges, and two lengths more.
pub(crate) fn with_edges(left: Units, edges: i64, width: Units, right: Units) -> i64
    requires low { neg_ℤ (pos 4294967296) ≤ℤ edges }
    requires high { edges ≤ℤ pos 4294967296 }
    ensures { result ≡ left +ℤ edges +ℤ width +ℤ right }
{
    wide(left) + edges + wide(width) + wide(right)
}

/// A length less these edges and another length.
pub(crate) fn less_edges(around: Units, edges: i64, width: Units) -> i64
    requires low { neg_ℤ (pos 4294967296) ≤ℤ edges }
    requires high { edges ≤ℤ pos 4294967296 }
    ensures rest { result ≡ around -ℤ edges -ℤ width }
    ensures low { neg_ℤ (pos 8589934592) ≤ℤ result }
    ensures high { result ≤ℤ pos 8589934592 }
{
    wide(around) - edges - wide(width)
}

/// A length less another one and these edges.
pub(crate) fn less_left(around: Units, left: Units, edges: i64) -> i64
    requires low { neg_ℤ (pos 4294967296) ≤ℤ edges }
    requires high { edges ≤ℤ pos 4294967296 }
    ensures { result ≡ around -ℤ left -ℤ edges }
{
    wide(around) - wide(left) - edges
}

/// The same, less one length more.
pub(crate) fn less_both(around: Units, left: Units, edges: i64, right: Units) -> i64
    requires low { neg_ℤ (pos 4294967296) ≤ℤ edges }
    requires high { edges ≤ℤ pos 4294967296 }
    ensures { result ≡ around -ℤ left -ℤ edges -ℤ right }
{
    wide(around) - wide(left) - edges - wide(right)
}

/// A length less these edges.
pub(crate) fn difference(n: Units, edges: i64) -> i64
    requires low { neg_ℤ (pos 4294967296) ≤ℤ edges }
    requires high { edges ≤ℤ pos 4294967296 }
    ensures { result ≡ n -ℤ edges }
{
    wide(n) - edges
}

/// A length with three sums of two.
pub(crate) fn outer(width: Units, margins: i64, borders: i64, paddings: i64) -> i64
    requires margins_low { neg_ℤ (pos 2147483648) ≤ℤ margins }
    requires margins_high { margins ≤ℤ pos 2147483648 }
    requires borders_low { neg_ℤ (pos 2147483648) ≤ℤ borders }
    requires borders_high { borders ≤ℤ pos 2147483648 }
    requires paddings_low { neg_ℤ (pos 2147483648) ≤ℤ paddings }
    requires paddings_high { paddings ≤ℤ pos 2147483648 }
    ensures { result ≡ width +ℤ margins +ℤ borders +ℤ paddings }
{
    wide(width) + margins + borders + paddings
}
