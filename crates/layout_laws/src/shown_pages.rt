//! Laws of what is shown of a page.
ghost use Rattle.std.specs.Prelude.{◌≡◌, map};
ghost use Rattle.page_model.specs.Pages.{Page};
ghost use Rattle.selectors_model.specs.Matching.{elements_of};
ghost use Rattle.layout_model.specs.Assignments.{IsConsistent};
ghost use Rattle.layout_model.specs.Entries.{Assignment};
ghost use Rattle.layout_model.specs.Positions.{shown};
ghost use Rattle.layout_model.specs.Setting.{Setting};

/// Each element of a page is shown once, in document order.
pub fn show_each_element()
    ensures { (setting : Setting) (page : Page) (a : Assignment) → IsConsistent setting page a
        → map (λ s. s.id) (shown a page.document.root) ≡ elements_of page.document.root }
{}

/// Two consistent assignments to a page show the same.
pub fn are_unique()
    ensures { (setting : Setting) (page : Page) (a b : Assignment) → IsConsistent setting page a → IsConsistent setting page b
        → shown a page.document.root ≡ shown b page.document.root }
{}
