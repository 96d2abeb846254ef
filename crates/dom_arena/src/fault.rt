//! Why a document is not made or changed.
ghost use Rattle.std.specs.Prelude.{◌≡◌};
ghost use Rattle.dom_arena.specs.Faults.{refusal_of_fault};
ghost use Rattle.dom_arena.specs.declared.fault.DocFault.TheVariants.{NoMemory as no_memory};

use page_model::Refusal;
use port_core::NoMemory;
use thiserror::Error;

/// Why a document is not made or changed.
#[derive(Clone, Copy, Debug, Drop, PartialEq, Eq, Error)]
pub enum DocFault {
    /// Memory ran out.
    #[error("out of memory")]
    NoMemory,
    /// The id is not that of a live node.
    #[error("there is no such node")]
    NoNode,
    /// The node is a text.
    #[error("the node is not an element")]
    NotElement,
    /// The node is an element.
    #[error("the node is not a text")]
    NotText,
    /// The node is the root.
    #[error("the node is the root")]
    IsRoot,
    /// The new parent is the moved node or stands below it.
    #[error("the new parent is the moved node or stands below it")]
    Cycle,
    /// The index is past the end of the parent's children.
    #[error("the index is past the end of the children")]
    BadIndex,
    /// The name of an element or attribute is not in the grammar of names.
    #[error("the name is not in the grammar of names")]
    BadName,
    /// There would be more than 20,000 live nodes.
    #[error("there would be too many nodes")]
    NodeLimit,
    /// A node would stand deeper than level 96.
    #[error("a node would stand too deep")]
    DepthLimit,
    /// A text or the value of an attribute would have more than 65,536 code points, or all together more
    /// than 16,777,216.
    #[error("the texts would be too long")]
    TextLimit,
    /// More than 100,000 ids would be given since the load.
    #[error("too many ids would be given")]
    IdLimit,
    /// An element would have more than 64 attributes.
    #[error("an element would have too many attributes")]
    AttrLimit,
}

impl From<NoMemory> for DocFault {
    ghost from_gives = { λ _ e. e ≡ no_memory };

    fn from(_e: NoMemory) -> DocFault {
        DocFault::NoMemory
    }
}

impl From<DocFault> for Refusal {
    ghost from_gives = { λ fault r. r ≡ refusal_of_fault fault };

    fn from(fault: DocFault) -> Refusal {
        match fault {
            DocFault::NoMemory => Refusal::NoMemory,
            DocFault::NoNode => Refusal::NoNode,
            DocFault::NotElement => Refusal::NotElement,
            DocFault::NotText => Refusal::NotText,
            DocFault::IsRoot => Refusal::IsRoot,
            DocFault::Cycle => Refusal::Cycle,
            DocFault::BadIndex => Refusal::BadIndex,
            DocFault::BadName => Refusal::BadName,
            DocFault::NodeLimit => Refusal::NodeLimit,
            DocFault::DepthLimit => Refusal::DepthLimit,
            DocFault::TextLimit => Refusal::TextLimit,
            DocFault::IdLimit => Refusal::IdLimit,
            DocFault::AttrLimit => Refusal::AttrLimit,
        }
    }
}
