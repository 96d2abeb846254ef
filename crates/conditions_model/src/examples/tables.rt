//! The tables of three values (Media Queries 4, section 3.1).
ghost use Rattle.conditions_model.specs.TriTables.{is_yes, tri, tri_and, tri_not, tri_or};
ghost use Rattle.conditions_model.specs.declared.tri.Tri.TheVariants.{Yes, No, Unknown};
ghost use Rattle.std.specs.Prelude.{◌≡◌, true, false};

/// The table of `not`.
pub fn not()
    ensures not_yes { tri_not Yes ≡ No }
    ensures not_no { tri_not No ≡ Yes }
    ensures not_unknown { tri_not Unknown ≡ Unknown }
{}

/// The table of `and`.
pub fn and()
    ensures yes_and_yes { tri_and Yes Yes ≡ Yes }
    ensures yes_and_no { tri_and Yes No ≡ No }
    ensures yes_and_unknown { tri_and Yes Unknown ≡ Unknown }
    ensures no_and_yes { tri_and No Yes ≡ No }
    ensures no_and_no { tri_and No No ≡ No }
    ensures no_and_unknown { tri_and No Unknown ≡ No }
    ensures unknown_and_yes { tri_and Unknown Yes ≡ Unknown }
    ensures unknown_and_no { tri_and Unknown No ≡ No }
    ensures unknown_and_unknown { tri_and Unknown Unknown ≡ Unknown }
{}

/// The table of `or`.
pub fn or()
    ensures yes_or_yes { tri_or Yes Yes ≡ Yes }
    ensures yes_or_no { tri_or Yes No ≡ Yes }
    ensures yes_or_unknown { tri_or Yes Unknown ≡ Yes }
    ensures no_or_yes { tri_or No Yes ≡ Yes }
    ensures no_or_no { tri_or No No ≡ No }
    ensures no_or_unknown { tri_or No Unknown ≡ Unknown }
    ensures unknown_or_yes { tri_or Unknown Yes ≡ Yes }
    ensures unknown_or_no { tri_or Unknown No ≡ Unknown }
    ensures unknown_or_unknown { tri_or Unknown Unknown ≡ Unknown }
{}

/// What is known, and what counts in the end.
pub fn two_values()
    ensures of_true { tri true ≡ Yes }
    ensures of_false { tri false ≡ No }
    ensures yes { is_yes Yes ≡ true }
    ensures no { is_yes No ≡ false }
    ensures unknown { is_yes Unknown ≡ false }
{}
