//! Laws of the grammar (Selectors 4, sections 3.9, 4 and 18).
ghost use Rattle.css_model.specs.declared.token.TokenType.{TokenType};
ghost use Rattle.selectors_laws.specs.Lists.{valid_members};
ghost use Rattle.selectors_model.specs.Grammar.{Atom, arguments_of, functional_pseudo_class, is_in_compound, list_of_all, list_of_valid, members_of, white};
ghost use Rattle.selectors_model.specs.Selectors.{Selector, SelectorList, is_pseudo_class, not_pseudo_class, where_pseudo_class};
ghost use Rattle.std.specs.Prelude.{◌≡◌, ◌∷◌, ◌++◌, [], codes, List, None, Option, Some, true, false};

/// White space at the ends of a list, and beside a comma, a combinator or other white space,
/// changes
/// nothing.
pub fn white_space()
    ensures in_front { (atoms : List Atom) → members_of (white ∷ atoms) ≡ members_of atoms }
    ensures at_the_end { (atoms : List Atom)
        → members_of (atoms ++ (white ∷ [])) ≡ members_of atoms }
    ensures before { (front : List Atom) (a : Atom) (rest : List Atom) → is_in_compound a ≡ false
        → members_of (front ++ (white ∷ a ∷ rest)) ≡ members_of (front ++ (a ∷ rest)) }
    ensures after { (front : List Atom) (a : Atom) (rest : List Atom) → is_in_compound a ≡ false
        → members_of (front ++ (a ∷ white ∷ rest)) ≡ members_of (front ++ (a ∷ rest)) }
{}

/// A forgiving list is that of its valid members, and where all are valid it is the list itself.
pub fn forgiving()
    ensures of_valid { (members : List (Option Selector))
        → list_of_all (valid_members members) ≡ Some (list_of_valid members) }
    ensures the_same { (members : List (Option Selector)) (list : SelectorList)
        → list_of_all members ≡ Some list → list_of_valid members ≡ list }
{}

/// Where all arguments are valid, `:is()`, `:where()` and `:not()` have the same list.
pub fn functions()
    ensures is { (atoms : List Atom) (types : List TokenType) (list : SelectorList)
        → list_of_all (arguments_of atoms) ≡ Some list
        → functional_pseudo_class (codes "is") atoms types ≡ Some (is_pseudo_class list) }
    ensures where_list { (atoms : List Atom) (types : List TokenType) (list : SelectorList)
        → list_of_all (arguments_of atoms) ≡ Some list
        → functional_pseudo_class (codes "where") atoms types ≡ Some (where_pseudo_class list) }
    ensures not_list { (atoms : List Atom) (types : List TokenType) (list : SelectorList)
        → list_of_all (arguments_of atoms) ≡ Some list
        → functional_pseudo_class (codes "not") atoms types ≡ Some (not_pseudo_class list) }
{}
