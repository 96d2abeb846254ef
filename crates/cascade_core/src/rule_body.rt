//! What a rule declares.
use crate::kept::Kept;
use crate::media::MediaBlocks;
use cascade_model::Origin;
use port_core::Seq;

/// A rule without its selectors.
#[derive(Debug, Drop)]
pub(crate) struct RuleBody {
    /// Whose rule it is.
    pub(crate) origin: Origin,
    /// The `@media` blocks around it, the outermost first.
    pub(crate) media: MediaBlocks,
    /// Its declarations.
    pub(crate) declarations: Seq<Kept>,
}
