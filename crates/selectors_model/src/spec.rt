//! Specificity (Selectors 4, section 17).

/// How far each count of a specificity goes.
pub const MAX_COUNT: u32 = 4_294_967_295;

/// The specificity of a selector: three counts, compared in this order. Each stops at `MAX_COUNT`.
#[derive(Clone, Copy, Debug, PartialEq, Eq)]
pub struct Spec {
    /// How many id selectors it has.
    pub ids: u32,
    /// How many class selectors, attribute selectors and pseudo-classes it has.
    pub classes: u32,
    /// How many type selectors and pseudo-elements it has.
    pub types: u32,
}
