//! Laws of the assignments to a page that are consistent.
ghost use Rattle.std.specs.Prelude.{◌≡◌, ◌↔◌, IsSome, ℕ};
ghost use Rattle.page_laws.specs.Ids.{HasGivenIds};
ghost use Rattle.page_model.specs.Document.{name_at};
ghost use Rattle.page_model.specs.Pages.{Page};
ghost use Rattle.layout_model.specs.Setting.{Setting};
ghost use Rattle.layout_model.specs.Consistent.{Assignment, Consistent};

/// A page on which no id stands twice has a consistent assignment.
pub fn exist()
    ensures { (setting : Setting) (page : Page) → HasGivenIds page.document
        → (a : Assignment) × Consistent setting page a }
{}

/// Two consistent assignments to a page give each id the same.
pub fn are_unique()
    ensures { (setting : Setting) (page : Page) (a b : Assignment)
        → Consistent setting page a → Consistent setting page b → (i : ℕ) → a i ≡ b i }
{}

/// A consistent assignment gives an entry to the id of each element, and to no other.
pub fn give_elements_alone()
    ensures { (setting : Setting) (page : Page) (a : Assignment) (i : ℕ) → Consistent setting page a
        → (IsSome (a i) ↔ IsSome (name_at i page.document.root)) }
{}
