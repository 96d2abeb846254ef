//! What a value is after substitution (CSS Custom Properties 1, section 3.1).
use css_tokens::Components;

/// A value after substitution.
#[derive(Debug, Drop)]
pub enum Substituted {
    /// Its component values.
    Value(Components),
    /// It is invalid at computed-value time.
    Invalid,
}
