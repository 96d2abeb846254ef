//! Laws of matching (Selectors 4, sections 3.1, 4 and 15).
ghost use Rattle.page_model.specs.Document.{Node};
ghost use Rattle.selectors_laws.specs.Chains.{IsCompoundOf, IsIn, IsMatch};
ghost use Rattle.selectors_laws.specs.Lists.{compounds_joined};
ghost use Rattle.selectors_laws.specs.Members.{IsMember, OneMatches};
ghost use Rattle.selectors_model.specs.Matching.{compound_matches, list_matches, matches, simple_matches};
ghost use Rattle.selectors_model.specs.Selectors.{Compound, Selector, SelectorList, Simple, compound, is_pseudo_class, no_selectors, no_simples, not_pseudo_class, selector, simple, where_pseudo_class};
ghost use Rattle.std.specs.Prelude.{◌≡◌, ◌↔◌, ◌&&◌, ◌≢◌, ℕ, not, true, false};

/// A selector matches an element exactly where there is a chain of elements, one for each compound,
/// that ends with this element.
pub fn chain()
    ensures { (root : Node) (s : Selector) (i : ℕ) → (matches root s i ≡ true) ↔ IsMatch root s i }
{}

/// A list matches exactly where one of its members does.
pub fn one_member()
    ensures { (root : Node) (list : SelectorList) (i : ℕ)
        → (list_matches root list i ≡ true) ↔ OneMatches root list i }
{}

/// `:is()` and `:where()` match exactly where one of their members does.
pub fn is_and_where()
    ensures is { (root : Node) (list : SelectorList) (i : ℕ)
        → (simple_matches root (is_pseudo_class list) i ≡ true) ↔ OneMatches root list i }
    ensures where_list { (root : Node) (list : SelectorList) (i : ℕ)
        → (simple_matches root (where_pseudo_class list) i ≡ true) ↔ OneMatches root list i }
{}

/// `:not()` matches exactly where none of its members does.
pub fn negation()
    ensures { (root : Node) (list : SelectorList) (i : ℕ)
        → (simple_matches root (not_pseudo_class list) i ≡ true)
        ↔ ((s : Selector) → IsMember s list → matches root s i ≡ false) }
{}

/// A compound matches exactly where each of its simple selectors does.
pub fn each_simple()
    ensures { (root : Node) (c : Compound) (i : ℕ)
        → (compound_matches root c i ≡ true)
        ↔ ((s : Simple) → IsIn s c → simple_matches root s i ≡ true) }
{}

/// The order of simple selectors does not matter: two compounds joined match where both do.
pub fn joined()
    ensures { (root : Node) (c d : Compound) (i : ℕ)
        → compound_matches root (compounds_joined c d) i ≡ compound_matches root c i
        && compound_matches root d i }
{}

/// A selector matches nothing where one of its compounds has a simple selector that matches
/// nothing,
/// such as `:hover`, a pseudo-element or `:is()`.
pub fn matches_nothing()
    ensures { (root : Node) (s : Selector) (c : Compound) (never : Simple)
        → IsCompoundOf c s → IsIn never c → ((e : ℕ) → simple_matches root never e ≡ false)
        → (i : ℕ) → matches root s i ≡ false }
{}
