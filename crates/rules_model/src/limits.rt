//! How large style sheets may be. How deep they may nest is `MAX_NESTING` of `css_model`.

/// The most style sheets of a page.
pub const MAX_SHEETS: usize = 8;

/// The most bytes of a style sheet in UTF-8.
pub const MAX_SHEET_BYTES: usize = 1_048_576;

/// The most style rules of a style sheet.
pub const MAX_STYLE_RULES: usize = 2_000;
