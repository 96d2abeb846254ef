//! Limits of values (CSS Custom Properties 1, section 3.3).

/// How many tokens a value may have after substitution; how deep it may nest is `MAX_NESTING` of
/// `css_model`.
pub const MAX_SUBSTITUTED_TOKENS: usize = 4_096;
