//! The keywords that each property takes (CSS Cascade 4, section 7.3).

/// A CSS-wide keyword (CSS Cascade 4, section 7.3).
#[derive(Clone, Copy, Debug, PartialEq, Eq)]
pub enum WideKeyword {
    /// `inherit`: the computed value of the parent.
    Inherit,
    /// `initial`: the initial value.
    Initial,
    /// `unset`: `inherit` for an inherited property, and else `initial`.
    Unset,
    /// `revert`: what there would be without the author's declarations.
    Revert,
}
