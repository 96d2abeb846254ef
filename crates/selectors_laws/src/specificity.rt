//! Laws of specificity (Selectors 4, section 17).
ghost use Rattle.page_model.specs.Document.{Node};
ghost use Rattle.selectors_laws.specs.Lists.{compounds_joined};
ghost use Rattle.selectors_laws.specs.Members.{IsMember, OneMatches};
ghost use Rattle.selectors_model.specs.declared.spec.Spec.{Spec};
ghost use Rattle.selectors_model.specs.Matching.{matches};
ghost use Rattle.selectors_model.specs.Selectors.{Compound, Selector, SelectorList};
ghost use Rattle.selectors_model.specs.Specificity.{compound_specificity, greatest_specificity, is_less_spec, matching_specificity, spec_sum, specificity};
ghost use Rattle.std.specs.Prelude.{◌≡◌, ◌↔◌, ℕ, None, Some, true, false};

/// The specificity of two compounds joined is the sum of theirs.
pub fn joined()
    ensures { (c d : Compound) → compound_specificity (compounds_joined c d)
        ≡ spec_sum (compound_specificity c) (compound_specificity d) }
{}

/// No member of a list is more specific than the greatest.
pub fn greatest()
    ensures { (list : SelectorList) (s : Selector) → IsMember s list
        → is_less_spec (greatest_specificity list) (specificity s) ≡ false }
{}

/// A list has a specificity for an element exactly where it matches it: no member that matches is
/// more specific, and one is as specific.
pub fn for_an_element()
    ensures upper { (root : Node) (list : SelectorList) (i : ℕ) (a : Spec) (s : Selector)
        → matching_specificity root list i ≡ Some a → IsMember s list → matches root s i ≡ true
        → is_less_spec a (specificity s) ≡ false }
    ensures reached { (root : Node) (list : SelectorList) (i : ℕ) (a : Spec)
        → matching_specificity root list i ≡ Some a
        → (s : Selector) × IsMember s list × (matches root s i ≡ true) × (specificity s ≡ a) }
    ensures none { (root : Node) (list : SelectorList) (i : ℕ) (s : Selector)
        → matching_specificity root list i ≡ None → IsMember s list → matches root s i ≡ false }
{}
