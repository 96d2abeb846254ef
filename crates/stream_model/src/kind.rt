//! The kinds of counted work.

/// A kind of counted work. Each is done at most once for an element in one request.
#[derive(Clone, Copy, Debug, PartialEq, Eq)]
pub enum Kind {
    /// The rules that apply to an element are found.
    Match,
    /// An element gets its style.
    Style,
    /// The preferred widths of a box are found.
    Measure,
    /// A box gets its width.
    Size,
    /// A box gets its height and places what is in it.
    Place,
}
