//! Keywords of values, by their names.

/// A keyword that some property takes by itself.
#[derive(Clone, Copy, Debug, PartialEq, Eq)]
pub enum Keyword {
    /// `auto`.
    Auto,
    /// `none`.
    None,
    /// `block`.
    Block,
    /// `inline`.
    Inline,
    /// `inline-block`.
    InlineBlock,
    /// `flow-root`.
    FlowRoot,
    /// `thin`.
    Thin,
    /// `medium`.
    Medium,
    /// `thick`.
    Thick,
    /// `hidden`.
    Hidden,
    /// `dotted`.
    Dotted,
    /// `dashed`.
    Dashed,
    /// `solid`.
    Solid,
    /// `double`.
    Double,
    /// `groove`.
    Groove,
    /// `ridge`.
    Ridge,
    /// `inset`.
    Inset,
    /// `outset`.
    Outset,
    /// `content-box`.
    ContentBox,
    /// `border-box`.
    BorderBox,
    /// `normal`.
    Normal,
    /// `left`.
    Left,
    /// `right`.
    Right,
    /// `center`.
    Center,
    /// `start`.
    Start,
    /// `end`.
    End,
    /// `nowrap`.
    Nowrap,
    /// `visible`.
    Visible,
    /// `scroll`.
    Scroll,
    /// `inline-size`.
    InlineSize,
    /// `size`.
    Size,
    /// `collapse`.
    Collapse,
    /// `italic`.
    Italic,
    /// `oblique`.
    Oblique,
    /// `bold`.
    Bold,
    /// `underline`.
    Underline,
    /// `overline`.
    Overline,
    /// `line-through`.
    LineThrough,
}
