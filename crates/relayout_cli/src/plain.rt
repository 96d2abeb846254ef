//! Which forms of requests are built.
ghost use Rattle.std.specs.Prelude.{◌≡◌, map, is_none, false, true};
ghost use Rattle.page_model.specs.Trees.{have_node, trees_of};
ghost use Rattle.page_model.specs.Refusals.{first_of};
ghost use Rattle.request_model.specs.States.{form_causes, has_text};
ghost use Rattle.dom_arena.specs.Shape.{shape};
ghost use Rattle.relayout_requests.specs.Views.{request_view};

use dom_arena::Tree;
use relayout_requests::{Edit, Request};

/// Returns whether the form of a request is built: no tree has a text.
pub fn is_built(request: &Request) -> bool
    ensures { result ≡ is_none (first_of (form_causes (request_view request.now))) }
{
    match request {
        Request::Edit(Edit::Load { doc, .. }) => !has_text(doc),
        Request::Edit(Edit::Insert { tree, .. }) => !has_text(tree),
        Request::Edit(Edit::Remove { .. } | Edit::Sheet { .. }) | Request::Query(_) => true,
    }
}

/// Returns whether a text is in a tree.
#[cycle(texts)]
fn has_text(tree: &Tree) -> bool
    ensures { result ≡ has_text (shape tree.now) }
{
    match tree {
        Tree::Elem(_, _, kids) => have_text(kids.as_slice()),
        Tree::Chars(_) => true,
    }
}

#[cycle(texts)]
fn have_text(kids: &[Tree]) -> bool
    ensures { result ≡ have_node (λ _ _. false) (λ _. true) (trees_of (map shape kids.now)) }
{
    for kid in kids {
        if has_text(kid) {
            return true;
        }
    }
    false
}
