//! Which texts are selector lists.
ghost use Rattle.css_model.specs.declared.token.TheConstants.{MAX_NESTING};
ghost use Rattle.selectors_model.specs.Selectors.{attribute_present, attribute_value, class_selector, combined, compound, id_selector, is_pseudo_class, no_selectors, no_simples, not_pseudo_class, nth_pseudo_class, pseudo_class, pseudo_element, selector, simple, type_selector, universal, where_pseudo_class};
ghost use Rattle.selectors_model.specs.declared.attribute_matcher.AttributeMatcher.TheVariants.{DashMatch, Equals, Includes, Prefix, Substring, Suffix};
ghost use Rattle.selectors_model.specs.declared.combinator.Combinator.TheVariants.{Child as ChildCombinator, Descendant, NextSibling, SubsequentSibling};
ghost use Rattle.selectors_model.specs.declared.pseudo_class.Nth.TheVariants.{Child, LastChild as NthLastChild, LastOfType as NthLastOfType, OfType};
ghost use Rattle.selectors_model.specs.declared.pseudo_class.PseudoClass.TheVariants.{FirstChild, FirstOfType, LastChild, LastOfType, OnlyChild, OnlyOfType, Root, Unmatched};
ghost use Rattle.selectors_model.specs.inner.Examples.{is_list, list};
ghost use Rattle.std.specs.List.{repeat};
ghost use Rattle.std.specs.Prelude.{◌≡◌, ◌∷◌, ◌++◌, [], codes, None, Some, pos, neg_ℤ, true, false};

/// Type selectors, `*`, ids and classes (Selectors 4, sections 5.1, 5.2, 6.6 and 6.7).
#[tactic(auto, unfolding(css_model::specs::inner::Nesting::levels_of, css_model::specs::inner::Pieces::pieces_after, css_model::specs::inner::Fronts::parts_after))]
pub fn simple()
    ensures a_type { is_list (codes "a") ≡ true }
    ensures any { is_list (codes "*") ≡ true }
    ensures id { is_list (codes "#a") ≡ true }
    ensures id_that_is_no_identifier { is_list (codes "#1") ≡ false }
    ensures id_that_is_a_hyphen { is_list (codes "#-") ≡ false }
    ensures class { is_list (codes ".a") ≡ true }
    ensures class_that_is_no_identifier { is_list (codes ".1") ≡ false }
    ensures white_space_after_the_dot { is_list (codes ". a") ≡ false }
    ensures comment_after_the_dot { is_list (codes "./**/a") ≡ true }
    ensures dot_alone { is_list (codes ".") ≡ false }
    ensures escape { is_list (codes ".\\31 ") ≡ true }
    ensures a_type_after_a_class { is_list (codes ".a b") ≡ true }
    ensures all { is_list (codes "a#b.c") ≡ true }
    ensures any_and_others { is_list (codes "*#b.c") ≡ true }
    ensures repeated { is_list (codes ".a.a#b#b") ≡ true }
    ensures a_type_last { is_list (codes ".a*") ≡ false }
    ensures two_types { is_list (codes "a*") ≡ false }
    ensures two_types_again { is_list (codes "*a") ≡ false }
    ensures two_identifiers { is_list (codes "a/**/b") ≡ false }
    ensures number { is_list (codes "1") ≡ false }
    ensures string { is_list (codes "\"a\"") ≡ false }
    ensures percentage { is_list (codes "1%") ≡ false }
    ensures exclamation_mark { is_list (codes "!") ≡ false }
    ensures namespace { is_list (codes "a|b") ≡ false }
    ensures any_namespace { is_list (codes "*|a") ≡ false }
    ensures no_namespace { is_list (codes "|a") ≡ false }
    ensures nesting { is_list (codes "&") ≡ false }
    ensures curly { is_list (codes "{a}") ≡ false }
    ensures round { is_list (codes "(a)") ≡ false }
    ensures function_alone { is_list (codes "is(a)") ≡ false }
    ensures semicolon { is_list (codes "a;") ≡ false }
    ensures at_keyword { is_list (codes "@a") ≡ false }
    ensures closing { is_list (codes "a)") ≡ false }
{}

/// Lists and combinators, and white space around them (sections 4.1 and 15).
#[tactic(auto, unfolding(css_model::specs::inner::Nesting::levels_of, css_model::specs::inner::Pieces::pieces_after, css_model::specs::inner::Fronts::parts_after))]
pub fn lists()
    ensures none { is_list (codes "") ≡ false }
    ensures white_space_alone { is_list (codes " ") ≡ false }
    ensures at_the_ends { is_list (codes " a\n") ≡ true }
    ensures two { is_list (codes "a,b") ≡ true }
    ensures around_the_comma { is_list (codes " a , b ") ≡ true }
    ensures comma_first { is_list (codes ",a") ≡ false }
    ensures comma_last { is_list (codes "a,") ≡ false }
    ensures two_commas { is_list (codes "a,,b") ≡ false }
    ensures comma_alone { is_list (codes ",") ≡ false }
    ensures white_space_between_commas { is_list (codes "a, ,b") ≡ false }
    ensures an_invalid_member { is_list (codes "a,1") ≡ false }
    ensures descendant { is_list (codes "a b") ≡ true }
    ensures child { is_list (codes "a>b") ≡ true }
    ensures next_sibling { is_list (codes "a+b") ≡ true }
    ensures subsequent_sibling { is_list (codes "a~b") ≡ true }
    ensures around { is_list (codes "a > b + c ~ d") ≡ true }
    ensures newlines { is_list (codes "a\n>\nb") ≡ true }
    ensures comment_in_white_space { is_list (codes "a /**/ b") ≡ true }
    ensures comment_alone { is_list (codes "a/**/.b") ≡ true }
    ensures combinator_first { is_list (codes ">a") ≡ false }
    ensures combinator_last { is_list (codes "a>") ≡ false }
    ensures combinator_and_white_space_last { is_list (codes "a > ") ≡ false }
    ensures two_combinators { is_list (codes "a>>b") ≡ false }
    ensures two_others { is_list (codes "a+~b") ≡ false }
    ensures apart { is_list (codes "a > + b") ≡ false }
    ensures combinator_alone { is_list (codes "+") ≡ false }
    ensures column { is_list (codes "a||b") ≡ false }
    ensures combinator_before_a_comma { is_list (codes "a>,b") ≡ false }
    ensures combinator_after_a_comma { is_list (codes "a,>b") ≡ false }
    ensures classes_apart { is_list (codes ".a .b") ≡ true }
{}

/// Attribute selectors (section 6).
#[tactic(auto, unfolding(css_model::specs::inner::Nesting::levels_of, css_model::specs::inner::Pieces::pieces_after, css_model::specs::inner::Fronts::parts_after))]
pub fn attributes()
    ensures presence { is_list (codes "[a]") ≡ true }
    ensures equals { is_list (codes "[a=b]") ≡ true }
    ensures string { is_list (codes "[a=\"b c\"]") ≡ true }
    ensures includes { is_list (codes "[a~=b]") ≡ true }
    ensures dash_match { is_list (codes "[a|=b]") ≡ true }
    ensures prefix { is_list (codes "[a^=b]") ≡ true }
    ensures suffix { is_list (codes "[a$=b]") ≡ true }
    ensures substring { is_list (codes "[a*=b]") ≡ true }
    ensures another_matcher { is_list (codes "[a!=b]") ≡ false }
    ensures empty { is_list (codes "[]") ≡ false }
    ensures white_space_alone { is_list (codes "[ ]") ≡ false }
    ensures white_space { is_list (codes "[ a ~= \"b\" ]") ≡ true }
    ensures no_value { is_list (codes "[a=]") ≡ false }
    ensures number { is_list (codes "[a=1]") ≡ false }
    ensures two_values { is_list (codes "[a=b c]") ≡ false }
    ensures flag { is_list (codes "[a=b i]") ≡ false }
    ensures flag_after_a_string { is_list (codes "[a=\"b\"s]") ≡ false }
    ensures white_space_in_a_matcher { is_list (codes "[a~ =b]") ≡ false }
    ensures comment_in_a_matcher { is_list (codes "[a~/**/=b]") ≡ true }
    ensures two_equals { is_list (codes "[a==b]") ≡ false }
    ensures matcher_alone { is_list (codes "[a~]") ≡ false }
    ensures string_for_a_name { is_list (codes "[\"a\"]") ≡ false }
    ensures namespace { is_list (codes "[a|b]") ≡ false }
    ensures no_namespace { is_list (codes "[|a]") ≡ false }
    ensures any_namespace { is_list (codes "[*|a]") ≡ false }
    ensures matcher_and_namespace { is_list (codes "[a|b=c]") ≡ false }
    ensures function { is_list (codes "[a=f()]") ≡ false }
    ensures block { is_list (codes "[a=(b)]") ≡ false }
    ensures open { is_list (codes "[a=b") ≡ true }
    ensures open_string { is_list (codes "[a=\"b") ≡ true }
    ensures bad_string { is_list (codes "[a=\"b\n]") ≡ false }
    ensures id { is_list (codes "[a=#b]") ≡ false }
    ensures two { is_list (codes "[a][b]") ≡ true }
    ensures white_space_between { is_list (codes "[a] [b]") ≡ true }
    ensures after_a_type { is_list (codes "p[a]") ≡ true }
    ensures a_type_after { is_list (codes "[a]p") ≡ false }
{}

/// Pseudo-classes without arguments, in any case (sections 3.5, 8, 9, 13 and 14).
#[tactic(auto, unfolding(css_model::specs::inner::Nesting::levels_of, css_model::specs::inner::Pieces::pieces_after, css_model::specs::inner::Fronts::parts_after))]
pub fn pseudo_classes()
    ensures root { is_list (codes ":root") ≡ true }
    ensures first_child { is_list (codes ":first-child") ≡ true }
    ensures last_child { is_list (codes ":last-child") ≡ true }
    ensures only_child { is_list (codes ":only-child") ≡ true }
    ensures first_of_type { is_list (codes ":first-of-type") ≡ true }
    ensures last_of_type { is_list (codes ":last-of-type") ≡ true }
    ensures only_of_type { is_list (codes ":only-of-type") ≡ true }
    ensures link { is_list (codes ":link") ≡ true }
    ensures any_link { is_list (codes ":any-link") ≡ true }
    ensures visited { is_list (codes ":visited") ≡ true }
    ensures target { is_list (codes ":target") ≡ true }
    ensures hover { is_list (codes ":hover") ≡ true }
    ensures active { is_list (codes ":active") ≡ true }
    ensures focus { is_list (codes ":focus") ≡ true }
    ensures focus_visible { is_list (codes ":focus-visible") ≡ true }
    ensures focus_within { is_list (codes ":focus-within") ≡ true }
    ensures checked { is_list (codes ":checked") ≡ true }
    ensures disabled { is_list (codes ":disabled") ≡ true }
    ensures enabled { is_list (codes ":enabled") ≡ true }
    ensures required { is_list (codes ":required") ≡ true }
    ensures optional { is_list (codes ":optional") ≡ true }
    ensures valid { is_list (codes ":valid") ≡ true }
    ensures invalid { is_list (codes ":invalid") ≡ true }
    ensures in_capitals { is_list (codes ":FIRST-Child") ≡ true }
    ensures escape { is_list (codes ":\\72oot") ≡ true }
    ensures unknown { is_list (codes ":zz") ≡ false }
    ensures empty { is_list (codes ":empty") ≡ false }
    ensures scope { is_list (codes ":scope") ≡ false }
    ensures first { is_list (codes ":first") ≡ false }
    ensures only { is_list (codes ":only") ≡ false }
    ensures read_only { is_list (codes ":read-only") ≡ false }
    ensures indeterminate { is_list (codes ":indeterminate") ≡ false }
    ensures defined { is_list (codes ":defined") ≡ false }
    ensures local_link { is_list (codes ":local-link") ≡ false }
    ensures white_space { is_list (codes ": root") ≡ false }
    ensures comment { is_list (codes ":/**/root") ≡ true }
    ensures as_a_function { is_list (codes ":root()") ≡ false }
    ensures as_an_argument { is_list (codes ":hover(a)") ≡ false }
    ensures colon_alone { is_list (codes ":") ≡ false }
    ensures a_function_without_arguments { is_list (codes ":not") ≡ false }
    ensures nth_without_arguments { is_list (codes ":nth-child") ≡ false }
    ensures is_without_arguments { is_list (codes ":is") ≡ false }
    ensures with_two_colons { is_list (codes "::hover") ≡ false }
    ensures after_others { is_list (codes "a:root:hover.b") ≡ true }
    ensures apart { is_list (codes "a :root") ≡ true }
{}

/// Pseudo-elements: known ones, last in a compound and in no function (section 3.6).
#[tactic(auto, unfolding(css_model::specs::inner::Nesting::levels_of, css_model::specs::inner::Pieces::pieces_after, css_model::specs::inner::Fronts::parts_after))]
pub fn pseudo_elements()
    ensures before { is_list (codes "::before") ≡ true }
    ensures after { is_list (codes "::after") ≡ true }
    ensures first_line { is_list (codes "::first-line") ≡ true }
    ensures first_letter { is_list (codes "::first-letter") ≡ true }
    ensures marker { is_list (codes "::marker") ≡ true }
    ensures selection { is_list (codes "::selection") ≡ true }
    ensures placeholder { is_list (codes "::placeholder") ≡ true }
    ensures before_with_one_colon { is_list (codes ":before") ≡ true }
    ensures after_with_one_colon { is_list (codes ":after") ≡ true }
    ensures first_line_with_one_colon { is_list (codes ":first-line") ≡ true }
    ensures first_letter_with_one_colon { is_list (codes ":first-letter") ≡ true }
    ensures marker_with_one_colon { is_list (codes ":marker") ≡ false }
    ensures selection_with_one_colon { is_list (codes ":selection") ≡ false }
    ensures placeholder_with_one_colon { is_list (codes ":placeholder") ≡ false }
    ensures in_capitals { is_list (codes "::BEFORE") ≡ true }
    ensures unknown { is_list (codes "::zz") ≡ false }
    ensures of_a_vendor { is_list (codes "::-webkit-x") ≡ true }
    ensures of_a_vendor_alone { is_list (codes "::-webkit-") ≡ true }
    ensures of_a_vendor_in_capitals { is_list (codes "::-WebKit-X") ≡ true }
    ensures of_a_vendor_with_one_colon { is_list (codes ":-webkit-x") ≡ false }
    ensures of_a_vendor_as_a_function { is_list (codes "::-webkit-x(y)") ≡ true }
    ensures of_a_vendor_as_a_function_with_one_colon { is_list (codes ":-webkit-x(y)") ≡ false }
    ensures of_another_vendor { is_list (codes "::-moz-x") ≡ false }
    ensures the_front_of_the_vendor { is_list (codes "::-webkit") ≡ false }
    ensures as_a_function { is_list (codes "::before()") ≡ false }
    ensures slotted { is_list (codes "::slotted(a)") ≡ false }
    ensures three_colons { is_list (codes ":::before") ≡ false }
    ensures white_space { is_list (codes ":: before") ≡ false }
    ensures white_space_between { is_list (codes ": :before") ≡ false }
    ensures comment { is_list (codes ":/**/:/**/before") ≡ true }
    ensures after_others { is_list (codes "a.b::before") ≡ true }
    ensures before_a_class { is_list (codes "::before.a") ≡ false }
    ensures before_a_pseudo_class { is_list (codes "::before:hover") ≡ false }
    ensures before_an_id { is_list (codes ":before#a") ≡ false }
    ensures before_an_attribute { is_list (codes "::before[a]") ≡ false }
    ensures two { is_list (codes "::before::after") ≡ false }
    ensures two_with_one_colon { is_list (codes ":before:after") ≡ false }
    ensures before_a_combinator { is_list (codes "a::before b") ≡ true }
    ensures before_a_comma { is_list (codes "::before,a") ≡ true }
    ensures in_not { is_list (codes ":not(::before)") ≡ false }
    ensures in_not_with_one_colon { is_list (codes ":not(:before)") ≡ false }
    ensures in_not_beside_another { is_list (codes ":not(a,b::before)") ≡ false }
    ensures in_not_on_the_left { is_list (codes ":not(a::before b)") ≡ false }
    ensures in_is { is_list (codes ":is(::before)") ≡ true }
    ensures in_is_beside_others { is_list (codes ":is(a,::before)::after") ≡ true }
{}

/// `:is()` and `:where()` drop invalid members, `:not()` does not (sections 4.2 to 4.4).
#[tactic(auto, unfolding(css_model::specs::inner::Nesting::levels_of, css_model::specs::inner::Pieces::pieces_after, css_model::specs::inner::Fronts::parts_after))]
pub fn functions()
    ensures is { is_list (codes ":is(a)") ≡ true }
    ensures where_list { is_list (codes ":where(a)") ≡ true }
    ensures not { is_list (codes ":not(a)") ≡ true }
    ensures in_capitals { is_list (codes ":IS(a):Where(b):NOT(c)") ≡ true }
    ensures lists { is_list (codes ":is(a,b):where(a , b):not(a,b)") ≡ true }
    ensures selectors { is_list (codes ":not(a > b c)") ≡ true }
    ensures white_space { is_list (codes ":not( a )") ≡ true }
    ensures empty_is { is_list (codes ":is()") ≡ true }
    ensures empty_where { is_list (codes ":where( )") ≡ true }
    ensures empty_not { is_list (codes ":not()") ≡ false }
    ensures blank_not { is_list (codes ":not( )") ≡ false }
    ensures invalid_in_is { is_list (codes ":is(1)") ≡ true }
    ensures invalid_in_where { is_list (codes ":where(a,:zz)") ≡ true }
    ensures invalid_in_not { is_list (codes ":not(:zz)") ≡ false }
    ensures one_invalid_in_not { is_list (codes ":not(a,:zz)") ≡ false }
    ensures comma_in_not { is_list (codes ":not(a,)") ≡ false }
    ensures comma_in_is { is_list (codes ":is(a,)") ≡ true }
    ensures nested { is_list (codes ":not(:is(:not(a)))") ≡ true }
    ensures not_in_not { is_list (codes ":not(:not(a))") ≡ true }
    ensures invalid_not_in_is { is_list (codes ":is(:not(:zz))") ≡ true }
    ensures invalid_is_in_not { is_list (codes ":not(:is(:zz))") ≡ true }
    ensures relative_in_not { is_list (codes ":not(> a)") ≡ false }
    ensures has { is_list (codes ":has(a)") ≡ false }
    ensures has_in_is { is_list (codes ":is(:has(a))") ≡ true }
    ensures has_in_not { is_list (codes ":not(:has(a))") ≡ false }
    ensures any { is_list (codes ":any(a)") ≡ false }
    ensures matches { is_list (codes ":matches(a)") ≡ false }
    ensures lang { is_list (codes ":lang(en)") ≡ false }
    ensures white_space_before { is_list (codes ": is(a)") ≡ false }
    ensures with_two_colons { is_list (codes "::is(a)") ≡ false }
    ensures open { is_list (codes ":not(a") ≡ true }
    ensures open_and_bracket { is_list (codes ":not([a") ≡ true }
    ensures others_after { is_list (codes "a:not(b).c") ≡ true }
    ensures a_type_after { is_list (codes ":is(a)b") ≡ false }
    ensures a_bracket { is_list (codes ":not((a))") ≡ false }
{}

/// What is read: names in their case, members, compounds and combinators from left to right.
#[tactic(auto, unfolding(css_model::specs::inner::Nesting::levels_of, css_model::specs::inner::Pieces::pieces_after, css_model::specs::inner::Fronts::parts_after))]
pub fn read()
    ensures in_order { list (codes "a#b.c")
        ≡ Some (selector (compound (simple (type_selector (codes "a")) (simple (id_selector (codes "b")) (simple (class_selector (codes "c")) no_simples)))) no_selectors) }
    ensures any { list (codes "*")
        ≡ Some (selector (compound (simple universal no_simples)) no_selectors) }
    ensures names_in_their_case { list (codes "Ab.Cd")
        ≡ Some (selector (compound (simple (type_selector (codes "Ab")) (simple (class_selector (codes "Cd")) no_simples))) no_selectors) }
    ensures escape { list (codes ".\\61")
        ≡ Some (selector (compound (simple (class_selector (codes "a")) no_simples)) no_selectors) }
    ensures members { list (codes "a,*")
        ≡ Some (selector (compound (simple (type_selector (codes "a")) no_simples)) (selector (compound (simple universal no_simples)) no_selectors)) }
    ensures left_to_right { list (codes "a b>*")
        ≡ Some (selector (combined (combined (compound (simple (type_selector (codes "a")) no_simples)) Descendant (simple (type_selector (codes "b")) no_simples)) ChildCombinator (simple universal no_simples)) no_selectors) }
    ensures siblings { list (codes "a + b ~ *")
        ≡ Some (selector (combined (combined (compound (simple (type_selector (codes "a")) no_simples)) NextSibling (simple (type_selector (codes "b")) no_simples)) SubsequentSibling (simple universal no_simples)) no_selectors) }
    ensures one_descendant { list (codes "a /**/ b")
        ≡ Some (selector (combined (compound (simple (type_selector (codes "a")) no_simples)) Descendant (simple (type_selector (codes "b")) no_simples)) no_selectors) }
    ensures presence { list (codes "[a]")
        ≡ Some (selector (compound (simple (attribute_present (codes "a")) no_simples)) no_selectors) }
    ensures equals { list (codes "[A=b]")
        ≡ Some (selector (compound (simple (attribute_value (codes "A") Equals (codes "b")) no_simples)) no_selectors) }
    ensures includes { list (codes "[A~=b]")
        ≡ Some (selector (compound (simple (attribute_value (codes "A") Includes (codes "b")) no_simples)) no_selectors) }
    ensures dashmatch { list (codes "[A|=b]")
        ≡ Some (selector (compound (simple (attribute_value (codes "A") DashMatch (codes "b")) no_simples)) no_selectors) }
    ensures prefix { list (codes "[A^=b]")
        ≡ Some (selector (compound (simple (attribute_value (codes "A") Prefix (codes "b")) no_simples)) no_selectors) }
    ensures suffix { list (codes "[A$=b]")
        ≡ Some (selector (compound (simple (attribute_value (codes "A") Suffix (codes "b")) no_simples)) no_selectors) }
    ensures substring { list (codes "[A*=b]")
        ≡ Some (selector (compound (simple (attribute_value (codes "A") Substring (codes "b")) no_simples)) no_selectors) }
    ensures a_string { list (codes "[a=\" \"]")
        ≡ Some (selector (compound (simple (attribute_value (codes "a") Equals (codes " ")) no_simples)) no_selectors) }
    ensures root { list (codes ":root")
        ≡ Some (selector (compound (simple (pseudo_class Root) no_simples)) no_selectors) }
    ensures firstchild { list (codes ":first-child")
        ≡ Some (selector (compound (simple (pseudo_class FirstChild) no_simples)) no_selectors) }
    ensures lastchild { list (codes ":last-child")
        ≡ Some (selector (compound (simple (pseudo_class LastChild) no_simples)) no_selectors) }
    ensures onlychild { list (codes ":only-child")
        ≡ Some (selector (compound (simple (pseudo_class OnlyChild) no_simples)) no_selectors) }
    ensures firstoftype { list (codes ":first-of-type")
        ≡ Some (selector (compound (simple (pseudo_class FirstOfType) no_simples)) no_selectors) }
    ensures lastoftype { list (codes ":last-of-type")
        ≡ Some (selector (compound (simple (pseudo_class LastOfType) no_simples)) no_selectors) }
    ensures onlyoftype { list (codes ":only-of-type")
        ≡ Some (selector (compound (simple (pseudo_class OnlyOfType) no_simples)) no_selectors) }
    ensures unmatched { list (codes ":hover")
        ≡ Some (selector (compound (simple (pseudo_class Unmatched) no_simples)) no_selectors) }
    ensures nth_child { list (codes ":nth-child(2n+1)")
        ≡ Some (selector (compound (simple (nth_pseudo_class Child (record { step = pos 2; offset = pos 1 })) no_simples)) no_selectors) }
    ensures nth_last_child { list (codes ":nth-last-child(2n+1)")
        ≡ Some (selector (compound (simple (nth_pseudo_class NthLastChild (record { step = pos 2; offset = pos 1 })) no_simples)) no_selectors) }
    ensures nth_of_type { list (codes ":nth-of-type(2n+1)")
        ≡ Some (selector (compound (simple (nth_pseudo_class OfType (record { step = pos 2; offset = pos 1 })) no_simples)) no_selectors) }
    ensures nth_last_of_type { list (codes ":nth-last-of-type(2n+1)")
        ≡ Some (selector (compound (simple (nth_pseudo_class NthLastOfType (record { step = pos 2; offset = pos 1 })) no_simples)) no_selectors) }
    ensures nth_in_capitals { list (codes ":NTH-CHILD(1)")
        ≡ Some (selector (compound (simple (nth_pseudo_class Child (record { step = pos 0; offset = pos 1 })) no_simples)) no_selectors) }
    ensures is_of_valid { list (codes ":is(:zz,a,1,::after)")
        ≡ Some (selector (compound (simple (is_pseudo_class (selector (compound (simple (type_selector (codes "a")) no_simples)) no_selectors)) no_simples)) no_selectors) }
    ensures is_of_none { list (codes ":is()")
        ≡ Some (selector (compound (simple (is_pseudo_class no_selectors) no_simples)) no_selectors) }
    ensures where_of_valid { list (codes ":where(a,:zz)")
        ≡ Some (selector (compound (simple (where_pseudo_class (selector (compound (simple (type_selector (codes "a")) no_simples)) no_selectors)) no_simples)) no_selectors) }
    ensures not_of_all { list (codes ":not(a,*)")
        ≡ Some (selector (compound (simple (not_pseudo_class (selector (compound (simple (type_selector (codes "a")) no_simples)) (selector (compound (simple universal no_simples)) no_selectors))) no_simples)) no_selectors) }
    ensures pseudo_element_last { list (codes "a::before")
        ≡ Some (selector (compound (simple (type_selector (codes "a")) (simple pseudo_element no_simples))) no_selectors) }
    ensures one_colon { list (codes "a:before")
        ≡ Some (selector (compound (simple (type_selector (codes "a")) (simple pseudo_element no_simples))) no_selectors) }
    ensures no_list { list (codes "a,1") ≡ None }
{}

/// A text that nests too deep is no list; 64 levels are within the limit.
#[tactic(auto, unfolding(css_model::specs::inner::Nesting::levels_of, css_model::specs::inner::Pieces::pieces_after, css_model::specs::inner::Fronts::parts_after))]
pub fn nesting()
    ensures limit { MAX_NESTING ≡ 64 }
    ensures at_the_limit { is_list (repeat 64 (codes ":is(")) ≡ true }
    ensures past_the_limit { is_list (repeat 65 (codes ":is(")) ≡ false }
    ensures brackets_too { is_list (codes "a" ++ (repeat 64 (codes ":is(") ++ codes "[b")) ≡ false }
{}
