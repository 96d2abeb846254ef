//! Laws of lists of declarations and at-rules (CSS Syntax 3, sections 5.4.4 to 5.4.6).
ghost use Rattle.css_model.specs.Components.{Component, Components, all_tokens_of, component};
ghost use Rattle.css_model.specs.inner.Nesting.{followed};
ghost use Rattle.rules_laws.specs.DeclarationLists.{AreItems, DeclarationItem, DeclarationRest, IsDeclarationList, IsPiece, IsRest, items_components, items_declarations, rest_components, rest_declarations};
ghost use Rattle.rules_laws.specs.Order.{IsSublist, declared_tokens};
ghost use Rattle.rules_laws.specs.RuleLists.{BeginsAtRule};
ghost use Rattle.rules_laws.specs.Values.{IsDeclaration};
ghost use Rattle.rules_model.specs.ComponentLists.{ends_at_rule, is_semicolon};
ghost use Rattle.rules_model.specs.Declarations.{Declaration, declaration_of, declarations_of};
ghost use Rattle.std.specs.Prelude.{◌≡◌, ◌↔◌, ◌++◌, List, None, Some, true};

/// A piece is a declaration exactly where it is an identifier, perhaps white space, `:` and a
/// value,
/// which is important where `!` and `important` end it.
pub fn form()
    ensures { (piece : Components) (d : Declaration) →
        IsDeclaration piece d ↔ (declaration_of piece ≡ Some d) }
{}

/// Each list of component values is a list of declarations and at-rules: pieces with their `;`,
/// whole
/// at-rules, what is passed over between them, and perhaps one that is not whole.
pub fn exist()
    ensures { (cs : Components) → IsDeclarationList cs }
{}

/// The declarations of a list are those of each whole piece, in their order, and of what is left.
pub fn of_items()
    ensures { (items : List DeclarationItem) (rest : DeclarationRest) → AreItems items → IsRest rest
        → declarations_of (followed (items_components items) (rest_components rest))
        ≡ items_declarations items ++ rest_declarations rest }
{}

/// The declarations of two lists, where the first ends with a `;` or a whole at-rule, are those of
/// the
/// first and then those of the second.
pub fn joined()
    ensures { (items : List DeclarationItem) (rest : Components) → AreItems items
        → declarations_of (followed (items_components items) rest)
        ≡ declarations_of (items_components items) ++ declarations_of rest }
{}

/// What is no declaration, with its `;`, put where a declaration would begin, changes nothing.
pub fn bad_declaration()
    ensures { (items : List DeclarationItem) (piece : Components) (semicolon : Component)
        (rest : Components)
        → AreItems items → IsPiece piece → is_semicolon semicolon ≡ true
        → declaration_of piece ≡ None
        → declarations_of (followed (items_components items)
        (followed piece (component semicolon rest)))
        ≡ declarations_of (followed (items_components items) rest) }
{}

/// An at-rule, put where a declaration would begin, changes nothing.
pub fn at_rule()
    ensures { (items : List DeclarationItem) (keyword : Component) (prelude : Components)
        (end : Component)
        (rest : Components) → AreItems items → BeginsAtRule keyword prelude
        → ends_at_rule end ≡ true
        → declarations_of (followed (items_components items)
        (component keyword (followed prelude (component end rest))))
        ≡ declarations_of (followed (items_components items) rest) }
{}

/// The tokens of the values stand in the list, in the order of the declarations.
pub fn in_order()
    ensures { (cs : Components) → IsSublist (declared_tokens (declarations_of cs))
        (all_tokens_of cs) }
{}
