//! The bases on which a length depends (CSS Values 4, section 6.1; CSS Conditional 5, section 7).

/// For each length in `Bases`, whether it is mentioned.
#[derive(Clone, Copy, Debug, PartialEq, Eq)]
pub struct UnitSet {
    /// The font size.
    pub em: bool,
    /// The font size of the root.
    pub rem: bool,
    /// The width of the viewport.
    pub vw: bool,
    /// The height of the viewport.
    pub vh: bool,
    /// The width of the container.
    pub cqw: bool,
    /// The height of the container.
    pub cqh: bool,
}
