//! Media types (Media Queries 4, section 2.3).

/// A media type.
#[derive(Clone, Copy, Debug, PartialEq, Eq)]
pub enum MediaType {
    /// `all`.
    All,
    /// `screen`.
    Screen,
    /// `print`, and each other one.
    Other,
}
