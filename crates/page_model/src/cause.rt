//! Why a request is refused, as its reply names it.
ghost use Rattle.std.specs.Prelude.{◌≡◌};

/// Why a request is refused. Its reply gives the number and the name.
#[derive(Clone, Copy, Debug, PartialEq, Eq)]
pub enum Cause {
    /// The line is not a JSON value.
    BadJson,
    /// The value is not a request.
    BadRequest,
    /// The line has more than 4,194,304 bytes.
    LineTooLong,
    /// Nothing is loaded.
    NotLoaded,
    /// The id is not that of a live node.
    NoNode,
    /// The node is a text.
    NotElement,
    /// The node is an element.
    NotText,
    /// The node is the root.
    IsRoot,
    /// The new parent is the moved node or stands below it.
    Cycle,
    /// The index is past the end of the parent's children.
    BadIndex,
    /// The name of an element or attribute is not in the grammar of names.
    BadName,
    /// The document would have more than 20,000 live nodes.
    NodeLimit,
    /// A node would stand deeper than level 96.
    DepthLimit,
    /// A text or an attribute's value, or all of them together, would be too long.
    TextLimit,
    /// More than 100,000 ids would be given since the load.
    IdLimit,
    /// A side of the viewport is greater than 10,000 pixels.
    ViewportRange,
    /// There would be too many style sheets, or one is too large.
    SheetLimit,
    /// No style sheet has this index.
    NoSheet,
    /// An element would have more than 64 attributes.
    AttrLimit,
    /// The text is not a list of selectors.
    BadSelector,
    /// The program cannot do this yet.
    NotBuilt,
}

impl Cause {
    ghost use Rattle.page_model.specs.Refusals.{cause_number, cause_name};

    /// Returns the number by which replies name the cause.
    pub fn number(self) -> u8
        ensures { result ≡ cause_number self }
    {
        match self {
            Cause::BadJson => 1,
            Cause::BadRequest => 2,
            Cause::LineTooLong => 3,
            Cause::NotLoaded => 4,
            Cause::NoNode => 5,
            Cause::NotElement => 6,
            Cause::NotText => 7,
            Cause::IsRoot => 8,
            Cause::Cycle => 9,
            Cause::BadIndex => 10,
            Cause::BadName => 11,
            Cause::NodeLimit => 12,
            Cause::DepthLimit => 13,
            Cause::TextLimit => 14,
            Cause::IdLimit => 15,
            Cause::ViewportRange => 16,
            Cause::SheetLimit => 17,
            Cause::NoSheet => 18,
            Cause::AttrLimit => 19,
            Cause::BadSelector => 20,
            Cause::NotBuilt => 21,
        }
    }

    /// Returns the word by which replies name the cause.
    pub fn name(self) -> &'static str
        ensures { result.now ≡ cause_name self }
    {
        match self {
            Cause::BadJson => "bad-json",
            Cause::BadRequest => "bad-request",
            Cause::LineTooLong => "line-too-long",
            Cause::NotLoaded => "not-loaded",
            Cause::NoNode => "no-node",
            Cause::NotElement => "not-element",
            Cause::NotText => "not-text",
            Cause::IsRoot => "is-root",
            Cause::Cycle => "cycle",
            Cause::BadIndex => "bad-index",
            Cause::BadName => "bad-name",
            Cause::NodeLimit => "node-limit",
            Cause::DepthLimit => "depth-limit",
            Cause::TextLimit => "text-limit",
            Cause::IdLimit => "id-limit",
            Cause::ViewportRange => "viewport-range",
            Cause::SheetLimit => "sheet-limit",
            Cause::NoSheet => "no-sheet",
            Cause::AttrLimit => "attr-limit",
            Cause::BadSelector => "bad-selector",
            Cause::NotBuilt => "not-built",
        }
    }
}
