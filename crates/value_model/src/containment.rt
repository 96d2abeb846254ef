//! Containment (CSS Containment 2, section 2).

/// Which kinds of containment a value of `contain` has (CSS Containment 2, section 2).
#[derive(Clone, Copy, Debug, PartialEq, Eq)]
pub struct Containment {
    /// Size containment.
    pub size: bool,
    /// Inline-size containment; it never stands beside size containment.
    pub inline_size: bool,
    /// Layout containment.
    pub layout: bool,
    /// Style containment.
    pub style: bool,
    /// Paint containment.
    pub paint: bool,
}
