//! `An+B` (CSS Syntax 3, section 6).

/// How large A and B may be; larger ones are clamped.
pub const MAX_AN_PLUS_B: i32 = 1_000_000_000;

/// The positions A n + B, where n is 0 or more (CSS Syntax 3, section 6).
#[derive(Clone, Copy, Debug, PartialEq, Eq)]
pub struct AnPlusB {
    /// A.
    pub step: i32,
    /// B.
    pub offset: i32,
}
