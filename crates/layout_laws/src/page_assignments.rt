//! Laws of the assignments of styles and boxes to a page that are consistent.
ghost use Rattle.std.specs.Prelude.{◌≡◌, ◌↔◌, IsSome, map, ℕ};
ghost use Rattle.page_model.specs.Document.{AreDistinct, ids, name_at};
ghost use Rattle.page_model.specs.Pages.{Page};
ghost use Rattle.selectors_model.specs.Matching.{elements_of};
ghost use Rattle.layout_model.specs.Assignments.{GivesNoOther, IsConsistent};
ghost use Rattle.layout_model.specs.Entries.{Assignment};
ghost use Rattle.layout_model.specs.Laid.{Says, assignment_of, laid_page};
ghost use Rattle.layout_model.specs.Setting.{Setting};

/// A page on which no id stands twice has a consistent assignment: the one that is laid.
pub fn exist()
    ensures { (setting : Setting) (page : Page) → AreDistinct (ids page.document.root)
        → IsConsistent setting page (assignment_of (laid_page page)) }
{}

/// Two consistent assignments to a page give each id the same.
pub fn are_unique()
    ensures { (setting : Setting) (page : Page) (a b : Assignment)
        → IsConsistent setting page a → IsConsistent setting page b → (i : ℕ) → a i ≡ b i }
{}

/// A consistent assignment gives an entry to the id of each element, and to no other.
pub fn give_elements_alone()
    ensures { (setting : Setting) (page : Page) (a : Assignment) (i : ℕ) → IsConsistent setting page a
        → (IsSome (a i) ↔ IsSome (name_at i page.document.root)) }
{}

/// An assignment that says what is laid, and gives nothing to what is no element, is consistent.
pub fn laid_is_consistent()
    ensures { (setting : Setting) (page : Page) (a : Assignment)
        → Says a (laid_page page) → GivesNoOther a page.document.root → IsConsistent setting page a }
{}

/// A consistent assignment says what is laid.
pub fn say_what_is_laid()
    ensures { (setting : Setting) (page : Page) (a : Assignment)
        → IsConsistent setting page a → Says a (laid_page page) }
{}

/// What is laid has the elements of the page, in document order.
pub fn stand_in_document_order()
    ensures { (page : Page) → map (λ e. e.0) (laid_page page) ≡ elements_of page.document.root }
{}
