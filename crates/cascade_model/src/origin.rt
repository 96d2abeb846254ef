//! Origins (CSS Cascade 4, section 6.2).

/// Where a declaration comes from (CSS Cascade 4, section 6.2).
#[derive(Clone, Copy, Debug, PartialEq, Eq)]
pub enum Origin {
    /// The sheet of the user agent.
    UserAgent,
    /// A sheet of the page, or a `style` attribute.
    Author,
}
