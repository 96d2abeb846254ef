//! Laws of combinators (Selectors 4, section 15).
ghost use Rattle.page_model.specs.Document.{AreDistinct, IsAmong, Node, ids, name_at};
ghost use Rattle.selectors_laws.specs.Closures.{IsReached};
ghost use Rattle.selectors_model.specs.declared.combinator.Combinator.TheVariants.{Child, Descendant, NextSibling, SubsequentSibling};
ghost use Rattle.selectors_model.specs.Elements.{left_of};
ghost use Rattle.std.specs.Prelude.{◌↔◌, IsSome, ℕ};

/// The descendant combinator is the closure of the child combinator: the ancestors of an element
/// are
/// what one or more steps to the parent lead to.
pub fn descendant()
    ensures { (root : Node) (i e : ℕ) → AreDistinct (ids root)
        → IsAmong e (left_of Descendant i root) ↔ IsReached root Child i e }
{}

/// The subsequent-sibling combinator is the closure of the next-sibling combinator: the siblings
/// before an element are what one or more steps to the sibling right before lead to.
pub fn subsequent_sibling()
    ensures { (root : Node) (i e : ℕ) → AreDistinct (ids root) → IsSome (name_at i root)
        → IsAmong e (left_of SubsequentSibling i root) ↔ IsReached root NextSibling i e }
{}
