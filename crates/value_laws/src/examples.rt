//! Computed values, and the properties that have them: functions that do nothing, whose clauses the
//! prover computes.
ghost use Rattle.std.specs.Prelude.{codes, negsuc, pos, ◌++◌, ◌≡◌, ◌∷◌, false, true, []};
ghost use Rattle.value_laws.specs.inner.Examples.{a_pixel, an_em, bases_of_zero, below_zero, border_colors, border_styles, margins, negative_bases, not_computed, percent, properties_with, rgba_color, ten_percent, units, with_colors, with_lengths, with_percentages};
ghost use Rattle.value_model.specs.Calculations.{calculation, divided, in_units, largest, leaf, no_calculations, scaled, smallest, sum};
ghost use Rattle.value_model.specs.Colors.{rgba};
ghost use Rattle.value_model.specs.Computing.{computed};
ghost use Rattle.value_model.specs.Forms.{contained};
ghost use Rattle.value_model.specs.Values.{alpha, color, color_value, containment, integer, keyword, keyword_value, length, names, number, wide_keyword};
ghost use Rattle.value_model.specs.declared.color.Color.TheVariants.{CurrentColor, Rgba};
ghost use Rattle.value_model.specs.declared.keyword.Keyword.TheVariants.{Auto, Block, Bold, BorderBox, Center, Collapse, ContentBox, Dashed, Dotted, Double, End, FlowRoot, Groove, Hidden, Inline, InlineBlock, InlineSize, Inset, Italic, Left, LineThrough, Medium, None as NoneKeyword, Normal, Nowrap, Oblique, Outset, Overline, Ridge, Right, Scroll, Size, Solid, Start, Thick, Thin, Underline, Visible};
ghost use Rattle.value_model.specs.declared.prop.Prop.TheVariants.{BackgroundColor, BorderTopWidth, BoxSizing, Color, Contain, ContainerName, ContainerType, Display, FontSize, FontStyle, FontWeight, Height, LineHeight, MarginTop, MaxHeight, MaxWidth, Opacity, Overflow, PaddingTop, PointerEvents, TextAlign, TextDecorationLine, Visibility, WhiteSpace, Width, ZIndex};
ghost use Rattle.value_model.specs.declared.wide_keyword.WideKeyword.TheVariants.{Inherit};

/// Keywords of boxes.
pub fn keywords_of_boxes()
    ensures auto { properties_with (keyword Auto)
        ≡ (Width ∷ Height ∷ []) ++ (margins ++ (Overflow ∷ ZIndex ∷ PointerEvents ∷ [])) }
    ensures none { properties_with (keyword NoneKeyword)
        ≡ (Display ∷ MaxWidth ∷ MaxHeight ∷ []) ++ (border_styles
        ++ (TextDecorationLine ∷ PointerEvents ∷ [])) }
    ensures block { properties_with (keyword Block) ≡ Display ∷ [] }
    ensures inline { properties_with (keyword Inline) ≡ Display ∷ [] }
    ensures inline_block { properties_with (keyword InlineBlock) ≡ Display ∷ [] }
    ensures flow_root { properties_with (keyword FlowRoot) ≡ Display ∷ [] }
    ensures content_box { properties_with (keyword ContentBox) ≡ BoxSizing ∷ [] }
    ensures border_box { properties_with (keyword BorderBox) ≡ BoxSizing ∷ [] }
    ensures visible { properties_with (keyword Visible) ≡ Overflow ∷ Visibility ∷ [] }
    ensures hidden { properties_with (keyword Hidden)
        ≡ border_styles ++ (Overflow ∷ Visibility ∷ []) }
    ensures scroll { properties_with (keyword Scroll) ≡ Overflow ∷ [] }
    ensures collapse { properties_with (keyword Collapse) ≡ Visibility ∷ [] }
    ensures inline_size { properties_with (keyword InlineSize) ≡ ContainerType ∷ [] }
    ensures size { properties_with (keyword Size) ≡ ContainerType ∷ [] }
    ensures normal { properties_with (keyword Normal)
        ≡ LineHeight ∷ WhiteSpace ∷ ContainerType ∷ FontStyle ∷ [] }
{}

/// Keywords of borders: those of widths compute to lengths.
pub fn keywords_of_borders()
    ensures thin { properties_with (keyword Thin) ≡ [] }
    ensures medium { properties_with (keyword Medium) ≡ [] }
    ensures thick { properties_with (keyword Thick) ≡ [] }
    ensures dotted { properties_with (keyword Dotted) ≡ border_styles }
    ensures dashed { properties_with (keyword Dashed) ≡ border_styles }
    ensures solid { properties_with (keyword Solid) ≡ border_styles }
    ensures double { properties_with (keyword Double) ≡ border_styles }
    ensures groove { properties_with (keyword Groove) ≡ border_styles }
    ensures ridge { properties_with (keyword Ridge) ≡ border_styles }
    ensures inset { properties_with (keyword Inset) ≡ border_styles }
    ensures outset { properties_with (keyword Outset) ≡ border_styles }
{}

/// Keywords of texts: `start`, `end` and `bold` compute to other values.
pub fn keywords_of_texts()
    ensures left { properties_with (keyword Left) ≡ TextAlign ∷ [] }
    ensures right { properties_with (keyword Right) ≡ TextAlign ∷ [] }
    ensures center { properties_with (keyword Center) ≡ TextAlign ∷ [] }
    ensures start { properties_with (keyword Start) ≡ [] }
    ensures end { properties_with (keyword End) ≡ [] }
    ensures nowrap { properties_with (keyword Nowrap) ≡ WhiteSpace ∷ [] }
    ensures italic { properties_with (keyword Italic) ≡ FontStyle ∷ [] }
    ensures oblique { properties_with (keyword Oblique) ≡ FontStyle ∷ [] }
    ensures bold { properties_with (keyword Bold) ≡ [] }
    ensures underline { properties_with (keyword Underline) ≡ TextDecorationLine ∷ [] }
    ensures overline { properties_with (keyword Overline) ≡ TextDecorationLine ∷ [] }
    ensures line_through { properties_with (keyword LineThrough) ≡ TextDecorationLine ∷ [] }
{}

/// Lengths in units: sizes, margins and paddings may be calculated, and so negative. The largest is 2^30.
pub fn lengths()
    ensures zero { properties_with (units (pos 0)) ≡ with_lengths }
    ensures one { properties_with (units (pos 1)) ≡ with_lengths }
    ensures largest { properties_with (units (pos 1073741824)) ≡ with_lengths }
    ensures too_large { properties_with (units (pos 1073741825)) ≡ [] }
    ensures below_zero { properties_with (units (negsuc 0)) ≡ with_percentages }
    ensures least { properties_with (units (negsuc 1073741823)) ≡ with_percentages }
    ensures too_small { properties_with (units (negsuc 1073741824)) ≡ [] }
{}

/// Percentages: none is left of a border, a font size and a line height.
pub fn percentages()
    ensures zero { properties_with (percent (pos 0)) ≡ with_percentages }
    ensures hundred { properties_with (percent (pos 100000000)) ≡ with_percentages }
    ensures below_zero { properties_with (percent (negsuc 0)) ≡ with_percentages }
{}

/// Calculations are of pixels and percentages, with at least one percentage.
pub fn calculations()
    ensures sum { properties_with (length (sum a_pixel ten_percent)) ≡ with_percentages }
    ensures scaled { properties_with (length (scaled ten_percent (negsuc 0))) ≡ with_percentages }
    ensures divided { properties_with (length (divided ten_percent (pos 1))) ≡ with_percentages }
    ensures smallest { properties_with (length (smallest a_pixel (calculation ten_percent
        no_calculations))) ≡ with_percentages }
    ensures largest { properties_with (length (largest a_pixel (calculation ten_percent
        no_calculations))) ≡ with_percentages }
    ensures pixel { properties_with (length a_pixel) ≡ [] }
    ensures pixels { properties_with (length (sum a_pixel a_pixel)) ≡ [] }
    ensures with_units { properties_with (length (sum (leaf (in_units (pos 64))) ten_percent)) ≡ [] }
    ensures scaled_units { properties_with (length (scaled (leaf (in_units (pos 64))) (pos 1))) ≡ [] }
{}

/// Numbers, and opacities from 0 to 1.
pub fn numbers()
    ensures zero { properties_with (number (pos 0)) ≡ LineHeight ∷ [] }
    ensures one_and_a_half { properties_with (number (pos 1500000)) ≡ LineHeight ∷ [] }
    ensures below_zero { properties_with (number (negsuc 0)) ≡ [] }
    ensures transparent { properties_with (alpha (pos 0)) ≡ Opacity ∷ [] }
    ensures half { properties_with (alpha (pos 500000)) ≡ Opacity ∷ [] }
    ensures opaque { properties_with (alpha (pos 1000000)) ≡ Opacity ∷ [] }
    ensures more_than_opaque { properties_with (alpha (pos 1000001)) ≡ [] }
    ensures less_than_transparent { properties_with (alpha (negsuc 0)) ≡ [] }
{}

/// Integers: weights are from 1 to 1000.
pub fn integers()
    ensures below_zero { properties_with (integer (negsuc 0)) ≡ ZIndex ∷ [] }
    ensures zero { properties_with (integer (pos 0)) ≡ ZIndex ∷ [] }
    ensures one { properties_with (integer (pos 1)) ≡ FontWeight ∷ ZIndex ∷ [] }
    ensures thousand { properties_with (integer (pos 1000)) ≡ FontWeight ∷ ZIndex ∷ [] }
    ensures more_than_thousand { properties_with (integer (pos 1001)) ≡ ZIndex ∷ [] }
{}

/// Colours, whose parts are from 0 to 255; `color` is never `currentcolor`.
pub fn colors()
    ensures current { properties_with (color CurrentColor)
        ≡ border_colors ++ (BackgroundColor ∷ []) }
    ensures transparent { properties_with (rgba_color 0 0 0 0) ≡ with_colors }
    ensures white { properties_with (rgba_color 255 255 255 255) ≡ with_colors }
    ensures too_red { properties_with (rgba_color 256 0 0 0) ≡ [] }
    ensures too_green { properties_with (rgba_color 0 256 0 0) ≡ [] }
    ensures too_blue { properties_with (rgba_color 0 0 256 0) ≡ [] }
    ensures too_opaque { properties_with (rgba_color 0 0 0 256) ≡ [] }
{}

/// Containments: not both `size` and `inline-size`.
pub fn containments()
    ensures nothing { properties_with (containment (contained false false false false false))
        ≡ Contain ∷ [] }
    ensures strict { properties_with (containment (contained true false true true true))
        ≡ Contain ∷ [] }
    ensures inline_size { properties_with (containment (contained false true true true true))
        ≡ Contain ∷ [] }
    ensures both { properties_with (containment (contained true true false false false)) ≡ [] }
    ensures both_and_more { properties_with (containment (contained true true true true true))
        ≡ [] }
{}

/// Names of containers: `none` is no name.
pub fn container_names()
    ensures no_names { properties_with (names []) ≡ ContainerName ∷ [] }
    ensures one { properties_with (names (codes "sidebar" ∷ [])) ≡ ContainerName ∷ [] }
    ensures two { properties_with (names (codes "card" ∷ codes "auto" ∷ [])) ≡ ContainerName ∷ [] }
    ensures not_none { properties_with (names (codes "none" ∷ [])) ≡ [] }
    ensures not_in_capitals { properties_with (names (codes "NOT" ∷ [])) ≡ [] }
    ensures not_at_the_end { properties_with (names (codes "card" ∷ codes "revert-layer" ∷ []))
        ≡ [] }
{}

/// What is not computed: `currentcolor` for `color` alone.
pub fn inherited_colors()
    ensures current { not_computed (color_value CurrentColor) ≡ Color ∷ [] }
    ensures black { not_computed (color_value (Rgba (rgba 0 0 0 255))) ≡ [] }
    ensures inherit { not_computed (wide_keyword Inherit) ≡ [] }
    ensures auto { not_computed (keyword_value Auto) ≡ [] }
{}

/// A calculation below 0 stays so for a padding, a size and a margin, and gives a border no width, a font no
/// size and a line no height.
pub fn calculations_below_zero()
    ensures padding { computed PaddingTop below_zero bases_of_zero (pos 0) ≡ units (negsuc 63) }
    ensures width { computed Width below_zero bases_of_zero (pos 0) ≡ units (negsuc 63) }
    ensures margin { computed MarginTop below_zero bases_of_zero (pos 0) ≡ units (negsuc 63) }
    ensures border { computed BorderTopWidth below_zero bases_of_zero (pos 0) ≡ units (pos 0) }
    ensures font_size { computed FontSize below_zero bases_of_zero (pos 0) ≡ units (pos 0) }
    ensures line_height { computed LineHeight below_zero bases_of_zero (pos 0) ≡ units (pos 0) }
{}

/// So does a positive length in a unit of a base that is below 0.
pub fn bases_below_zero()
    ensures padding { computed PaddingTop an_em negative_bases (pos 0) ≡ units (negsuc 63) }
    ensures border { computed BorderTopWidth an_em negative_bases (pos 0) ≡ units (pos 0) }
{}
