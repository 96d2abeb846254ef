//! The preferred widths of a box.
use units64::Units;

/// The preferred widths of a box: each pair is a minimum and a preferred width. The ledger's key `L`
/// names the ledger that this was logged in.
#[derive(Debug, Drop)]
pub struct Measured<L> {
    /// Of the content box.
    pub inner: (Units, Units),
    /// Of the margin box.
    pub outer: (Units, Units),
    /// It stays `None`.
    pub(crate) key: Option<L>,
}
