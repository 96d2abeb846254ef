//! What is refused of a new tree for the limits of documents.
ghost use Rattle.std.specs.Prelude.{◌≡◌, ◌∷◌, [], ◌+◌, ◌||◌, nat_lt};
ghost use Rattle.page_model.specs.declared.limits.TheConstants.{MAX_DEPTH, MAX_IDS, MAX_NODES, MAX_TEXTS};
ghost use Rattle.page_model.specs.declared.cause.Cause.TheVariants as cause;
ghost use Rattle.page_model.specs.Edits.{nothing_taken, tree_causes};
ghost use Rattle.dom_arena.specs.Faults.{ChecksBy};
ghost use Rattle.dom_arena.specs.Measures.{taken_of};
ghost use Rattle.dom_arena.specs.Shape.{shape};

use crate::fault::DocFault;
use crate::sizes::{Measured, measure};
use crate::tree::Tree;
use page_model::{MAX_DEPTH, MAX_IDS, MAX_NODES, MAX_TEXTS};

/// How much of the limits is taken where a new tree is to stand.
#[derive(Clone, Copy, Debug, PartialEq, Eq)]
pub struct Taken {
    /// The level of the node above the tree, or 0.
    pub level: u32,
    /// The number of live nodes.
    pub nodes: u32,
    /// The number of ids that were given.
    pub ids: u32,
    /// The number of code points of all texts and values of attributes.
    pub code_points: u32,
}

impl Taken {
    /// Returns what is taken before anything is loaded.
    pub fn nothing() -> Taken
        ensures { taken_of result ≡ nothing_taken }
    {
        Taken {
            level: 0,
            nodes: 0,
            ids: 0,
            code_points: 0,
        }
    }
}

/// Refuses names, numbers of attributes and texts.
fn check_grammar(tree: Measured, taken: Taken) -> Result<(), DocFault>
    ensures { ChecksBy ((tree.bad_name, cause.BadName) ∷ (tree.many_attributes, cause.AttrLimit)
        ∷ (tree.long_text || nat_lt MAX_TEXTS (taken.code_points + tree.code_points), cause.TextLimit)
        ∷ []) result }
{
    if tree.bad_name {
        return Err(DocFault::BadName);
    }
    if tree.many_attributes {
        return Err(DocFault::AttrLimit);
    }
    if tree.long_text {
        return Err(DocFault::TextLimit);
    }
    if tree.code_points.saturating_add(taken.code_points as u64) > MAX_TEXTS as u64 {
        return Err(DocFault::TextLimit);
    }
    Ok(())
}

/// Refuses a tree that is too deep or has too many nodes.
fn check_size(tree: Measured, taken: Taken) -> Result<(), DocFault>
    ensures { ChecksBy ((nat_lt MAX_DEPTH (taken.level + tree.levels), cause.DepthLimit)
        ∷ (nat_lt MAX_NODES (taken.nodes + tree.nodes), cause.NodeLimit)
        ∷ (nat_lt MAX_IDS (taken.ids + tree.nodes), cause.IdLimit) ∷ []) result }
{
    if taken.level.saturating_add(tree.levels) > MAX_DEPTH {
        return Err(DocFault::DepthLimit);
    }
    if taken.nodes.saturating_add(tree.nodes) > MAX_NODES {
        return Err(DocFault::NodeLimit);
    }
    if taken.ids.saturating_add(tree.nodes) > MAX_IDS {
        return Err(DocFault::IdLimit);
    }
    Ok(())
}

/// Refuses a tree by the first limit that it would break. Its time is linear in the code points of
/// the tree.
pub fn check(tree: &Tree, taken: Taken) -> Result<(), DocFault>
    ensures { ChecksBy (tree_causes (taken_of taken) (shape tree.now)) result }
{
    let measured = measure(tree);
    check_grammar(measured, taken)?;
    check_size(measured, taken)
}
