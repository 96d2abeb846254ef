//! Sheets and `style` attributes as texts, and their limits.
ghost use Rattle.css_model.specs.declared.token.TheConstants.{MAX_NESTING};
ghost use Rattle.rules_model.specs.Sheets.{first_limit, limit_of_sheet, sheet_limits, size_of_sheet};
ghost use Rattle.rules_model.specs.declared.limits.TheConstants.{MAX_SHEETS, MAX_SHEET_BYTES, MAX_STYLE_RULES};
ghost use Rattle.rules_model.specs.declared.sheet_limit.SheetLimit.TheVariants.{TooDeep, TooLarge, TooManyRules};
ghost use Rattle.rules_model.specs.inner.Examples.{style_attr};
ghost use Rattle.std.specs.List.{repeat};
ghost use Rattle.std.specs.Prelude.{◌≡◌, ◌∷◌, ◌++◌, [], None, Some, codes, true, false};

/// The numbers.
pub fn numbers()
    ensures sheets { MAX_SHEETS ≡ 8 }
    ensures bytes { MAX_SHEET_BYTES ≡ 1048576 }
    ensures rules { MAX_STYLE_RULES ≡ 2000 }
    ensures levels { MAX_NESTING ≡ 64 }
{}

/// A sheet may reach each limit and not go past it; of several the first in the order is told.
pub fn limits()
    ensures at_each { first_limit (sheet_limits (record { bytes = 1048576; levels = 64; rules = 2000 }))
        ≡ None }
    ensures too_large { first_limit (sheet_limits (record { bytes = 1048577; levels = 64; rules = 2000 }))
        ≡ Some TooLarge }
    ensures too_deep { first_limit (sheet_limits (record { bytes = 1048576; levels = 65; rules = 2000 }))
        ≡ Some TooDeep }
    ensures too_many { first_limit (sheet_limits (record { bytes = 1048576; levels = 64; rules = 2001 }))
        ≡ Some TooManyRules }
    ensures all { first_limit (sheet_limits (record { bytes = 1048577; levels = 65; rules = 2001 }))
        ≡ Some TooLarge }
    ensures too_large_and_many { first_limit (sheet_limits (record { bytes = 1048577; levels = 0; rules = 2001 }))
        ≡ Some TooLarge }
    ensures too_deep_and_many { first_limit (sheet_limits (record { bytes = 0; levels = 65; rules = 2001 }))
        ≡ Some TooDeep }
{}

/// What is limited: bytes in UTF-8, levels, and the style rules that are not dropped.
#[tactic(auto, unfolding(css_model::specs::inner::Nesting::levels_of, css_model::specs::inner::Pieces::pieces_after, css_model::specs::inner::Fronts::parts_after))]
pub fn sizes()
    ensures empty { size_of_sheet [] ≡ record { bytes = 0; levels = 0; rules = 0 } }
    ensures rules { size_of_sheet (codes "p{}q{a:(b)}@foo{r{}}s") ≡ record { bytes = 21; levels = 2; rules = 2 } }
    ensures in_a_block { size_of_sheet (codes "@media x{p{}q{}}") ≡ record { bytes = 16; levels = 2; rules = 2 } }
    ensures before_preprocessing { size_of_sheet (13 ∷ 10 ∷ 0 ∷ []) ≡ record { bytes = 3; levels = 0; rules = 0 } }
    ensures at_the_limit { limit_of_sheet (repeat 64 (codes "{")) ≡ None }
    ensures past_the_limit { limit_of_sheet (repeat 65 (codes "{")) ≡ Some TooDeep }
    ensures in_what_is_dropped { limit_of_sheet (codes "@foo " ++ repeat 65 (codes "(")) ≡ Some TooDeep }
{}

/// The bytes of a sheet are those of UTF-8.
#[tactic(auto, unfolding(std::specs::Prelude::encode_utf8, css_model::specs::inner::Nesting::levels_of, css_model::specs::inner::Pieces::pieces_after, css_model::specs::inner::Fronts::parts_after))]
pub fn bytes()
    ensures of_code_points { size_of_sheet (127 ∷ 128 ∷ 2047 ∷ 2048 ∷ 65535 ∷ 65536 ∷ [])
        ≡ record { bytes = 15; levels = 0; rules = 0 } }
{}

/// A `style` attribute is a list of declarations; one that nests too deep has none.
#[tactic(auto, unfolding(css_model::specs::inner::Nesting::levels_of, css_model::specs::inner::Pieces::pieces_after, css_model::specs::inner::Fronts::parts_after))]
pub fn style_attributes()
    ensures declarations { style_attr (codes "a:b;c:d!important")
        ≡ (codes "a", (codes "b", false)) ∷ (codes "c", (codes "d", true)) ∷ [] }
    ensures empty { style_attr (codes "") ≡ [] }
    ensures a_closing_bracket { style_attr (codes "a:b}c;d:e")
        ≡ (codes "a", (codes "b}c", false)) ∷ (codes "d", (codes "e", false)) ∷ [] }
    ensures a_block { style_attr (codes "{a:b}") ≡ [] }
    ensures at_the_limit { style_attr (codes "a:b;c:" ++ repeat 64 (codes "("))
        ≡ (codes "a", (codes "b", false)) ∷ (codes "c", (repeat 64 (codes "("), false)) ∷ [] }
    ensures past_the_limit { style_attr (codes "a:b;c:" ++ repeat 65 (codes "(")) ≡ [] }
{}
