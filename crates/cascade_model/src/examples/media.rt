//! Rules in `@media` blocks (CSS Conditional 3, section 2; Media Queries 4, section 2).
ghost use Rattle.cascade_model.specs.inner.Examples.{media_of_sheet, only_type, units, width_by, width_on_high};
ghost use Rattle.conditions_model.specs.declared.media_type.MediaType.TheVariants.{All, Other, Screen};
ghost use Rattle.std.specs.Prelude.{[], codes, ◌∷◌, ◌≡◌};
ghost use Rattle.value_model.specs.Values.{keyword};
ghost use Rattle.value_model.specs.declared.keyword.Keyword.TheVariants.{Auto};

/// A rule in a block applies where its media query matches.
#[tactic(auto, unfolding(css_model::specs::inner::Nesting::levels_of, css_model::specs::inner::Pieces::pieces_after, css_model::specs::inner::Fronts::parts_after))]
pub fn types()
    ensures screen { width_by (codes "@media screen{div{width:1px}}") ≡ units 64 }
    ensures print { width_by (codes "@media print{div{width:1px}}") ≡ keyword Auto }
    ensures not_print { width_by (codes "@media not print{div{width:1px}}") ≡ units 64 }
    ensures only_screen { width_by (codes "@media only screen{div{width:1px}}") ≡ units 64 }
    ensures no_queries { width_by (codes "@media{div{width:1px}}") ≡ units 64 }
    ensures in_capitals { width_by (codes "@MEDIA SCREEN{div{width:1px}}") ≡ units 64 }
{}

/// Features are judged on the viewport, and `em` there is the initial font size.
#[tactic(auto, unfolding(css_model::specs::inner::Nesting::levels_of, css_model::specs::inner::Pieces::pieces_after, css_model::specs::inner::Fronts::parts_after))]
pub fn features()
    ensures wide { width_by (codes "@media (min-width:800px){div{width:1px}}") ≡ units 64 }
    ensures wider { width_by (codes "@media (min-width:801px){div{width:1px}}") ≡ keyword Auto }
    ensures low { width_by (codes "@media (height<=600px){div{width:1px}}") ≡ units 64 }
    ensures lower { width_by (codes "@media (height<600px){div{width:1px}}") ≡ keyword Auto }
    ensures landscape { width_by (codes "@media (orientation:landscape){div{width:1px}}") ≡ units 64 }
    ensures portrait { width_by (codes "@media (orientation:portrait){div{width:1px}}") ≡ keyword Auto }
    ensures em { width_by (codes "div{font-size:100px}@media (width=50em){div{width:1px}}") ≡ units 64 }
    ensures em_of_the_root { width_by (codes "div{font-size:100px}@media (width=8em){div{width:1px}}") ≡ keyword Auto }
    ensures landscape_on_high { width_on_high (codes "@media (orientation:landscape){div{width:1px}}") ≡ keyword Auto }
    ensures portrait_on_high { width_on_high (codes "@media (orientation:portrait){div{width:1px}}") ≡ units 64 }
{}

/// What is not known is not Yes, however it is negated, but may stand beside what is.
#[tactic(auto, unfolding(css_model::specs::inner::Nesting::levels_of, css_model::specs::inner::Pieces::pieces_after, css_model::specs::inner::Fronts::parts_after))]
pub fn unknown()
    ensures alone { width_by (codes "@media (foo){div{width:1px}}") ≡ keyword Auto }
    ensures negated { width_by (codes "@media not (foo){div{width:1px}}") ≡ keyword Auto }
    ensures or_known { width_by (codes "@media (foo) or (width>1px){div{width:1px}}") ≡ units 64 }
    ensures and_known { width_by (codes "@media (foo) and (width>1px){div{width:1px}}") ≡ keyword Auto }
    ensures no_query { width_by (codes "@media and{div{width:1px}}") ≡ keyword Auto }
    ensures no_query_and_one { width_by (codes "@media and,screen{div{width:1px}}") ≡ units 64 }
{}

/// One query of a list is enough.
#[tactic(auto, unfolding(css_model::specs::inner::Nesting::levels_of, css_model::specs::inner::Pieces::pieces_after, css_model::specs::inner::Fronts::parts_after))]
pub fn lists()
    ensures one { width_by (codes "@media print,(orientation:landscape){div{width:1px}}") ≡ units 64 }
    ensures none { width_by (codes "@media print,(orientation:portrait){div{width:1px}}") ≡ keyword Auto }
{}

/// A rule in several blocks applies where all of them match.
#[tactic(auto, unfolding(css_model::specs::inner::Nesting::levels_of, css_model::specs::inner::Pieces::pieces_after, css_model::specs::inner::Fronts::parts_after))]
pub fn nested()
    ensures both { width_by (codes "@media screen{@media (width>1px){div{width:1px}}}") ≡ units 64 }
    ensures outer_alone { width_by (codes "@media screen{@media print{div{width:1px}}}") ≡ keyword Auto }
    ensures inner_alone { width_by (codes "@media print{@media screen{div{width:1px}}}") ≡ keyword Auto }
    ensures middle_not { width_by (codes "@media screen{@media print{@media all{div{width:1px}}}}") ≡ keyword Auto }
    ensures after_an_inner_block { width_by (codes "@media screen{@media print{div{width:2px}}div{width:1px}}") ≡ units 64 }
    ensures after_a_block { width_by (codes "@media print{div{width:2px}}div{width:1px}") ≡ units 64 }
    ensures after_one_that_matches { width_by (codes "@media screen{}@media print{div{width:1px}}") ≡ keyword Auto }
{}

/// A block gives its rules no other place in the order.
#[tactic(auto, unfolding(css_model::specs::inner::Nesting::levels_of, css_model::specs::inner::Pieces::pieces_after, css_model::specs::inner::Fronts::parts_after))]
pub fn order()
    ensures earlier { width_by (codes "@media screen{div{width:1px}}div{width:2px}") ≡ units 128 }
    ensures later { width_by (codes "div{width:1px}@media screen{div{width:2px}}") ≡ units 128 }
    ensures less_specific { width_by (codes "@media screen{div{width:1px}}*{width:2px}") ≡ units 64 }
    ensures no_more_specific { width_by (codes "div{width:1px}@media screen{*{width:2px}}") ≡ units 64 }
    ensures important { width_by (codes "@media print{div{width:2px!important}}div{width:1px}") ≡ units 64 }
    ensures invalid_selectors { width_by (codes "@media screen{:zz{width:2px}div{width:1px}}") ≡ units 64 }
{}

/// The queries around a rule, the outermost first; `@container` has none.
#[tactic(auto, unfolding(css_model::specs::inner::Nesting::levels_of, css_model::specs::inner::Pieces::pieces_after, css_model::specs::inner::Fronts::parts_after))]
pub fn around_rules()
    ensures none { media_of_sheet (codes "p{}") ≡ [] ∷ [] }
    ensures one { media_of_sheet (codes "@media print{p{}}") ≡ (only_type Other ∷ []) ∷ [] }
    ensures outermost_first { media_of_sheet (codes "@media print{@media screen{@media all{p{}}}}") ≡ (only_type Other ∷ only_type Screen ∷ only_type All ∷ []) ∷ [] }
    ensures of_each_rule { media_of_sheet (codes "@media print{p{}@media screen{q{}}a{}}b{}") ≡ (only_type Other ∷ []) ∷ (only_type Other ∷ only_type Screen ∷ []) ∷ (only_type Other ∷ []) ∷ [] ∷ [] }
    ensures in_a_container { media_of_sheet (codes "@container (width>1px){p{}}") ≡ [] ∷ [] }
    ensures outside_a_container { media_of_sheet (codes "@media print{@container (width>1px){p{}}}") ≡ (only_type Other ∷ []) ∷ [] }
    ensures around_a_container { media_of_sheet (codes "@media print{@container screen{@media all{p{}}}}") ≡ (only_type Other ∷ only_type All ∷ []) ∷ [] }
    ensures no_queries { media_of_sheet (codes "@media{p{}}") ≡ ([] ∷ []) ∷ [] }
{}
