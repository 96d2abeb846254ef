//! Why an edit is not carried out.
ghost use Rattle.std.specs.Prelude.{◌≡◌};
ghost use Rattle.page_model.specs.declared.refusal.Refusal.TheVariants.{NoMemory as no_memory};

use crate::cause::Cause;
use std::alloc::AllocError;
use thiserror::Error;

/// Why an edit is not carried out: the cause of its refusal, or want of memory.
#[derive(Clone, Copy, Debug, Drop, PartialEq, Eq, Error)]
pub enum Refusal {
    /// Memory ran out.
    #[error("out of memory")]
    NoMemory,
    /// Nothing is loaded.
    #[error("nothing is loaded")]
    NotLoaded,
    /// The id is not that of a live node.
    #[error("there is no such node")]
    NoNode,
    /// The node is a text.
    #[error("the node is not an element")]
    NotElement,
    /// The node is an element.
    #[error("the node is not a text")]
    NotText,
    /// The node is the root.
    #[error("the node is the root")]
    IsRoot,
    /// The new parent is the moved node or stands below it.
    #[error("the new parent is the moved node or stands below it")]
    Cycle,
    /// The index is past the end of the parent's children.
    #[error("the index is past the end of the children")]
    BadIndex,
    /// The name of an element or attribute is not in the grammar of names.
    #[error("the name is not in the grammar of names")]
    BadName,
    /// The document would have more than 20,000 live nodes.
    #[error("there would be too many nodes")]
    NodeLimit,
    /// A node would stand deeper than level 96.
    #[error("a node would stand too deep")]
    DepthLimit,
    /// A text or an attribute's value, or all of them together, would be too long.
    #[error("the texts would be too long")]
    TextLimit,
    /// More than 100,000 ids would be given since the load.
    #[error("too many ids would be given")]
    IdLimit,
    /// A side of the viewport is greater than 10,000 pixels.
    #[error("the viewport is too large")]
    ViewportRange,
    /// There would be too many style sheets, or one is too large.
    #[error("the style sheets are too many or too large")]
    SheetLimit,
    /// No style sheet has this index.
    #[error("there is no such style sheet")]
    NoSheet,
    /// An element would have more than 64 attributes.
    #[error("an element would have too many attributes")]
    AttrLimit,
}

impl Refusal {
    ghost use Rattle.page_model.specs.Refusals.{cause_of};

    /// Returns the cause that a reply names, or `None` for want of memory.
    pub fn cause(self) -> Option<Cause>
        ensures { result ≡ cause_of self }
    {
        match self {
            Refusal::NoMemory => None,
            Refusal::NotLoaded => Some(Cause::NotLoaded),
            Refusal::NoNode => Some(Cause::NoNode),
            Refusal::NotElement => Some(Cause::NotElement),
            Refusal::NotText => Some(Cause::NotText),
            Refusal::IsRoot => Some(Cause::IsRoot),
            Refusal::Cycle => Some(Cause::Cycle),
            Refusal::BadIndex => Some(Cause::BadIndex),
            Refusal::BadName => Some(Cause::BadName),
            Refusal::NodeLimit => Some(Cause::NodeLimit),
            Refusal::DepthLimit => Some(Cause::DepthLimit),
            Refusal::TextLimit => Some(Cause::TextLimit),
            Refusal::IdLimit => Some(Cause::IdLimit),
            Refusal::ViewportRange => Some(Cause::ViewportRange),
            Refusal::SheetLimit => Some(Cause::SheetLimit),
            Refusal::NoSheet => Some(Cause::NoSheet),
            Refusal::AttrLimit => Some(Cause::AttrLimit),
        }
    }
}

impl From<AllocError> for Refusal {
    ghost from_gives = { λ _ r. r ≡ no_memory };

    fn from(_: AllocError) -> Refusal {
        Refusal::NoMemory
    }
}
