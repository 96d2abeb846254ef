//! Laws of lists without the white space at their ends.
ghost use Rattle.css_model.specs.Components.{Components};
ghost use Rattle.rules_laws.specs.Parts.{IsPadded};
ghost use Rattle.rules_model.specs.ComponentLists.{trimmed};
ghost use Rattle.std.specs.Prelude.{◌≡◌};

/// What is left is a part of the list, with nothing but white space before and after it.
pub fn trimmed_is_part()
    ensures { (cs : Components) → IsPadded cs (trimmed cs) }
{}

/// There is no other such part.
pub fn no_other_part()
    ensures { (cs part : Components) → IsPadded cs part → part ≡ trimmed cs }
{}
