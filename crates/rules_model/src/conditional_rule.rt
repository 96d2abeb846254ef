//! The at-rules whose blocks hold rules under a condition.

/// The at-rules whose blocks hold rules under a condition.
#[derive(Clone, Copy, Debug, PartialEq, Eq)]
pub enum ConditionalRule {
    /// `@media`.
    Media,
    /// `@container`.
    Container,
}
