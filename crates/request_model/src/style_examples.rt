//! What `style` asks, why it is refused, and which styles are not built yet.
ghost use Rattle.std.specs.Prelude.{◌≡◌, ℕ, [], ◌∷◌, Some, None, true, false, codes};
ghost use Rattle.page_model.specs.Document.{document, element, no_nodes, node, text};
ghost use Rattle.page_model.specs.Refusals.{first_of};
ghost use Rattle.page_model.specs.declared.cause.Cause.TheVariants.{BadRequest, NoNode, NotBuilt, NotElement, NotLoaded};
ghost use Rattle.request_model.specs.declared.query.Query.TheVariants.{Style};
ghost use Rattle.request_model.specs.Requests.{asked_of, broken, query, request};
ghost use Rattle.request_model.specs.States.{query_causes, refusal_of};
ghost use Rattle.request_model.specs.UnbuiltStyles.{has_unbuilt, has_unbuilt_rule};
ghost use Rattle.request_model.specs.inner.Examples.{page_with, page_with_attribute, page_with_attributes, page_with_sheets};
ghost use Rattle.rules_model.specs.Sheets.{style_attr_of};
ghost use Rattle.serde_json.specs.Data.{string, object, number, member, no_members, null, unsigned};

/// `style` has an id, which is an integer.
#[tactic(auto, unfolding(crate::specs::Requests::asked_of, crate::specs::Requests::request_named, crate::specs::Requests::style_of, crate::specs::Requests::is_name_not_built))]
pub fn examples_of_asking_for_styles()
    ensures id { asked_of (Some (object (member (codes "do") (string (codes "style"))
        (member (codes "id") (number (unsigned 7)) no_members))))
        ≡ request (query (Style 7)) }
    ensures missing { asked_of (Some (object (member (codes "do") (string (codes "style")) no_members)))
        ≡ broken BadRequest }
    ensures not_a_number { asked_of (Some (object (member (codes "do") (string (codes "style"))
        (member (codes "id") (string (codes "7")) no_members))))
        ≡ broken BadRequest }
    ensures another { asked_of (Some (object (member (codes "do") (string (codes "style"))
        (member (codes "id") (number (unsigned 7)) (member (codes "z") null no_members)))))
        ≡ broken BadRequest }
{}

/// A style is refused where nothing is loaded, then where the node is not there or is a text, and
/// then where styles of the page are not built yet.
#[tactic(auto, unfolding(crate::specs::States::refusal_of, css_model::specs::inner::Nesting::levels_of, css_model::specs::inner::Pieces::pieces_after, css_model::specs::inner::Fronts::parts_after))]
pub fn examples_of_style_causes()
    ensures not_loaded { (i : ℕ) → refusal_of None (query (Style i)) ≡ Some NotLoaded }
    ensures element { refusal_of (Some (page_with (codes "p{width:1px}"))) (query (Style 1)) ≡ None }
    ensures root { refusal_of (Some (page_with [])) (query (Style 0)) ≡ None }
    ensures a_text { refusal_of (Some (page_with [])) (query (Style 2)) ≡ Some NotElement }
    ensures no_node { refusal_of (Some (page_with [])) (query (Style 3)) ≡ Some NoNode }
    ensures not_built { refusal_of (Some (page_with (codes "q{a:1cqw}"))) (query (Style 1)) ≡ Some NotBuilt }
    ensures node_first { refusal_of (Some (page_with (codes "q{a:1cqw}"))) (query (Style 3)) ≡ Some NoNode }
    ensures second_sheet { refusal_of (Some (page_with_sheets (codes "p{}" ∷ codes "q{a:1cqw}" ∷ [])))
        (query (Style 1)) ≡ Some NotBuilt }
    ensures text_first { refusal_of (Some (page_with (codes "q{a:1cqw}"))) (query (Style 2)) ≡ Some NotElement }
    ensures custom { refusal_of (Some (page_with (codes "p{--a:1;width:var(--a)}"))) (query (Style 1)) ≡ None }
{}

/// Units of containers, however deep and in any case, in the values of custom properties too; custom
/// properties, references to them and calculations are built.
#[tactic(auto, unfolding(css_model::specs::inner::Nesting::levels_of, css_model::specs::inner::Pieces::pieces_after, css_model::specs::inner::Fronts::parts_after))]
pub fn examples_of_unbuilt_values()
    ensures plain { has_unbuilt (style_attr_of (codes "width:1em;color:red")) ≡ false }
    ensures custom { has_unbuilt (style_attr_of (codes "--a:1")) ≡ false }
    ensures in_a_custom { has_unbuilt (style_attr_of (codes "--a:f(1cqw)")) ≡ true }
    ensures in_one_not_right { has_unbuilt (style_attr_of (codes "--:1cqw")) ≡ true }
    ensures var { has_unbuilt (style_attr_of (codes "width:var(--a)")) ≡ false }
    ensures in_a_fallback { has_unbuilt (style_attr_of (codes "width:var(--a,1cqw)")) ≡ true }
    ensures calc { has_unbuilt (style_attr_of (codes "width:calc(1px)")) ≡ false }
    ensures min { has_unbuilt (style_attr_of (codes "width:min(1px)")) ≡ false }
    ensures max { has_unbuilt (style_attr_of (codes "width:max(1px)")) ≡ false }
    ensures clamp { has_unbuilt (style_attr_of (codes "width:clamp(1px,1px,1px)")) ≡ false }
    ensures in_a_calculation { has_unbuilt (style_attr_of (codes "width:calc(1px + 1cqw)")) ≡ true }
    ensures deep { has_unbuilt (style_attr_of (codes "zz:a[{f(1cqw)}]")) ≡ true }
    ensures other_function { has_unbuilt (style_attr_of (codes "color:rgb(1,2,3)")) ≡ false }
    ensures a_name_alone { has_unbuilt (style_attr_of (codes "--cqw:cqw")) ≡ false }
    ensures cqw { has_unbuilt (style_attr_of (codes "width:1cqw")) ≡ true }
    ensures cqh { has_unbuilt (style_attr_of (codes "width:1CQH")) ≡ true }
    ensures cqi { has_unbuilt (style_attr_of (codes "width:1cqi")) ≡ true }
    ensures cqb { has_unbuilt (style_attr_of (codes "width:1cqb")) ≡ true }
    ensures cqmin { has_unbuilt (style_attr_of (codes "width:f(1cqmin)")) ≡ true }
    ensures cqmax { has_unbuilt (style_attr_of (codes "width:1cqmax")) ≡ true }
    ensures vmin { has_unbuilt (style_attr_of (codes "width:1vmin")) ≡ false }
    ensures a_word { has_unbuilt (style_attr_of (codes "width:cqw")) ≡ false }
    ensures later { has_unbuilt (style_attr_of (codes "a:b;width:1cqw")) ≡ true }
{}

/// Rules inside conditions of containers, rules with such declarations, and `style` attributes with
/// them.
#[tactic(auto, unfolding(css_model::specs::inner::Nesting::levels_of, css_model::specs::inner::Pieces::pieces_after, css_model::specs::inner::Fronts::parts_after))]
pub fn examples_of_unbuilt_pages()
    ensures plain { has_unbuilt_rule (codes "p{width:1px}") ≡ false }
    ensures media { has_unbuilt_rule (codes "@media print{p{}}") ≡ false }
    ensures media_of_units { has_unbuilt_rule (codes "@media (width>1cqw){p{}}") ≡ false }
    ensures declaration_in_media { has_unbuilt_rule (codes "@media print{p{a:1cqw}}") ≡ true }
    ensures container { has_unbuilt_rule (codes "@container (width>1px){p{}}") ≡ true }
    ensures in_media { has_unbuilt_rule (codes "@media print{@container (width>1px){p{}}}") ≡ true }
    ensures around_media { has_unbuilt_rule (codes "@container (width>1px){@media print{p{}}}") ≡ true }
    ensures beside_media { has_unbuilt_rule (codes "@media print{@container (width>1px){}p{}}") ≡ false }
    ensures no_rule { has_unbuilt_rule (codes "@container (width>1px){}") ≡ false }
    ensures other_at_rule { has_unbuilt_rule (codes "@font-face{a:1cqw}") ≡ false }
    ensures at_rule_inside { has_unbuilt_rule (codes "p{@x{a:1cqw}}") ≡ false }
    ensures in_a_selector { has_unbuilt_rule (codes "p:not(1cqw){}") ≡ false }
    ensures declaration { has_unbuilt_rule (codes "p{}q{a:1cqw}") ≡ true }
    ensures invalid_selector { has_unbuilt_rule (codes "!{a:1cqw}") ≡ true }
    ensures attribute { first_of (query_causes (Some (page_with_attribute (codes "a:1cqw"))) (Style 0))
        ≡ Some NotBuilt }
    ensures attribute_of_the_root { first_of (query_causes
        (Some (page_with_attributes ((codes "style", codes "a:1cqw") ∷ []) [])) (Style 1)) ≡ Some NotBuilt }
    ensures other_attribute { first_of (query_causes
        (Some (page_with_attributes [] ((codes "class", codes "a:1cqw") ∷ []))) (Style 1)) ≡ None }
    ensures plain_attribute { first_of (query_causes (Some (page_with_attribute (codes "width:1px"))) (Style 0))
        ≡ None }
{}
