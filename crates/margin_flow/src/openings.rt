//! Edges at which margins adjoin (CSS 2.1, section 8.3.1).
ghost use Rattle.flow_model.specs.Collapsing as model;
ghost use Rattle.std.specs.Prelude.{◌≡◌};

use flow_model::Used;
use units64::Units;

/// Whether a length is 0.
pub(crate) fn is_zero(n: Units) -> bool
    ensures { result ≡ model.is_zero n }
{
    n.get() == 0
}

pub(crate) fn no_top_edge(u: &Used) -> bool
    ensures { result ≡ model.no_top_edge u.now }
{
    is_zero(u.bt) && is_zero(u.pt)
}

pub(crate) fn no_bottom_edge(u: &Used) -> bool
    ensures { result ≡ model.no_bottom_edge u.now }
{
    is_zero(u.bb) && is_zero(u.pb)
}

/// Whether the top margin adjoins that of the first child.
pub(crate) fn is_top_open(u: &Used) -> bool
    ensures { result ≡ model.is_top_open u.now }
{
    !u.independent && no_top_edge(u)
}

/// Whether the bottom margin adjoins that of the last child.
pub(crate) fn is_bottom_open(u: &Used) -> bool
    ensures { result ≡ model.is_bottom_open u.now }
{
    !u.independent
        && (no_bottom_edge(u) && (u.h.is_none() && (is_zero(u.min_h) && !u.size_contained)))
}

pub(crate) fn is_auto_or_zero(h: Option<Units>) -> bool
    ensures { result ≡ model.is_auto_or_zero h }
{
    match h {
        Some(h) => is_zero(h),
        None => true,
    }
}
