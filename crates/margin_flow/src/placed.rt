//! Where the items of a box stand.
use flow_model::Margins;
use port_core::Seq;
use units64::Units;

/// Where the items of a box stand, and what the box hands up. The ledger's key `L` names the ledger
/// that this was logged in.
#[derive(Debug, Drop)]
pub struct Placed<L> {
    /// The top edge of each item, below the top of the content box.
    pub offsets: Seq<i64>,
    /// The `auto` height of the content box.
    pub auto_height: Units,
    /// The margins that adjoin the top edge of the box.
    pub top: Margins,
    /// The margins that adjoin its bottom edge.
    pub bottom: Margins,
    /// Whether these are one set.
    pub through: bool,
    /// The last baseline, below the top border edge.
    pub baseline: Option<Units>,
    /// It stays `None`.
    pub(crate) key: Option<L>,
}
