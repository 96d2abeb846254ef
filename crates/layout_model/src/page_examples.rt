//! What is shown of small pages of 800 by 600 pixels. Lengths are in units, of which a pixel has 64.
ghost use Rattle.std.specs.Prelude.{◌≡◌, ◌∷◌, [], codes, None, pos};
ghost use Rattle.cascade_model.specs.inner.Examples.{leaf, page_with, parent};
ghost use Rattle.layout_model.specs.Positions.{boxed, inline, none, offset_of, shown};
ghost use Rattle.layout_model.specs.inner.Examples.{auto, block, empty, high, inline_with, laid_by, minus, one, p, percent, root_box, shapes_by, shapes_on, units, without_box};
ghost use Rattle.page_model.specs.Document.{no_nodes, node, text};
ghost use Rattle.value_model.specs.declared.prop.Prop.TheVariants.{BorderLeftWidth, BorderTopWidth, Height, MarginBottom, MarginLeft, MarginRight, MarginTop, PaddingLeft, PaddingTop, Width};

/// The root is laid into the viewport and stands at its own margins, which are not joined with those
/// of its children (CSS 2.1, sections 8.3.1 and 10.1).
pub fn roots()
    ensures fills_the_viewport { shapes_by (block [] ∷ []) (empty 0)
        ≡ boxed (pos 0) (pos 0) (pos 51200) (pos 0) (pos 51200) (pos 0) ∷ [] }
    ensures margins { shapes_by (block ((MarginLeft, units (pos 64)) ∷ (MarginTop, units (pos 128)) ∷ []) ∷ []) (empty 0)
        ≡ boxed (pos 64) (pos 128) (pos 51136) (pos 0) (pos 51136) (pos 0) ∷ [] }
    ensures margin_of_a_child { shapes_by (block ((MarginTop, units (pos 64)) ∷ []) ∷ block ((MarginTop, units (pos 32)) ∷ (Height, units (pos 10)) ∷ []) ∷ [])
        (p 0 (one (empty 1)))
        ≡ boxed (pos 0) (pos 64) (pos 51200) (pos 42) (pos 51200) (pos 42)
        ∷ boxed (pos 0) (pos 96) (pos 51200) (pos 10) (pos 51200) (pos 10) ∷ [] }
    ensures without_a_box { shapes_by (without_box ∷ block [] ∷ []) (p 0 (one (empty 1))) ≡ none ∷ none ∷ [] }
{}

/// A box stands by its offset from the content edge of its container, and by its left margin.
pub fn edges()
    ensures content_edge { shapes_by (block []
        ∷ block ((MarginLeft, units (pos 10)) ∷ (BorderLeftWidth, units (pos 3)) ∷ (PaddingLeft, units (pos 20)) ∷ (BorderTopWidth, units (pos 5)) ∷ (PaddingTop, units (pos 30)) ∷ [])
        ∷ block ((MarginLeft, units (pos 7)) ∷ (MarginTop, units (pos 9)) ∷ (Height, units (pos 40)) ∷ []) ∷ [])
        (p 0 (one (p 1 (one (empty 2)))))
        ≡ boxed (pos 0) (pos 0) (pos 51200) (pos 84) (pos 51200) (pos 84)
        ∷ boxed (pos 10) (pos 0) (pos 51190) (pos 84) (pos 51167) (pos 49)
        ∷ boxed (pos 40) (pos 44) (pos 51160) (pos 40) (pos 51160) (pos 40) ∷ [] }
    ensures auto_margins { shapes_by (block [] ∷ block ((Width, units (pos 65)) ∷ (MarginLeft, auto) ∷ (MarginRight, auto) ∷ (Height, units (pos 64)) ∷ []) ∷ [])
        (p 0 (one (empty 1)))
        ≡ boxed (pos 0) (pos 0) (pos 51200) (pos 64) (pos 51200) (pos 64)
        ∷ boxed (pos 25567) (pos 0) (pos 65) (pos 64) (pos 65) (pos 64) ∷ [] }
    ensures contents_that_overflow { shapes_by (block [] ∷ high 10 ∷ high 50 ∷ high 7 ∷ [])
        (p 0 (node (p 1 (one (empty 2))) (one (empty 3))))
        ≡ boxed (pos 0) (pos 0) (pos 51200) (pos 17) (pos 51200) (pos 17)
        ∷ boxed (pos 0) (pos 0) (pos 51200) (pos 10) (pos 51200) (pos 10)
        ∷ boxed (pos 0) (pos 0) (pos 51200) (pos 50) (pos 51200) (pos 50)
        ∷ boxed (pos 0) (pos 10) (pos 51200) (pos 7) (pos 51200) (pos 7) ∷ [] }
{}

/// An offset is found by the place of the box in the contents; what is given nothing is not shown.
pub fn places()
    ensures second { offset_of 2 (record { id = 1; style = block []; box = root_box } ∷ record { id = 2; style = block []; box = root_box } ∷ []) (pos 7 ∷ pos 9 ∷ [])
        ≡ pos 9 }
    ensures not_among { offset_of 3 (record { id = 1; style = block []; box = root_box } ∷ []) (pos 7 ∷ []) ≡ pos 0 }
    ensures no_offset { offset_of 1 (record { id = 1; style = block []; box = root_box } ∷ []) [] ≡ pos 0 }
    ensures given_nothing { shown (λ i. None) (p 0 (one (empty 1))) ≡ [] }
{}

/// Margins pass through empty boxes and through open edges (CSS 2.1, section 8.3.1).
pub fn margins()
    ensures empty_boxes { shapes_by (block [] ∷ high 640
        ∷ block ((MarginTop, units (pos 640)) ∷ (MarginBottom, units (pos 640)) ∷ [])
        ∷ block ((MarginTop, units (minus 256)) ∷ (MarginBottom, units (minus 256)) ∷ []) ∷ high 640 ∷ [])
        (p 0 (node (empty 1) (node (empty 2) (node (empty 3) (one (empty 4))))))
        ≡ boxed (pos 0) (pos 0) (pos 51200) (pos 1664) (pos 51200) (pos 1664)
        ∷ boxed (pos 0) (pos 0) (pos 51200) (pos 640) (pos 51200) (pos 640)
        ∷ boxed (pos 0) (pos 1280) (pos 51200) (pos 0) (pos 51200) (pos 0)
        ∷ boxed (pos 0) (pos 1024) (pos 51200) (pos 0) (pos 51200) (pos 0)
        ∷ boxed (pos 0) (pos 1024) (pos 51200) (pos 640) (pos 51200) (pos 640) ∷ [] }
    ensures first_child { shapes_by (block [] ∷ block ((MarginTop, units (pos 10)) ∷ []) ∷ block ((MarginTop, units (pos 30)) ∷ (Height, units (pos 5)) ∷ []) ∷ [])
        (p 0 (one (p 1 (one (empty 2)))))
        ≡ boxed (pos 0) (pos 0) (pos 51200) (pos 35) (pos 51200) (pos 35)
        ∷ boxed (pos 0) (pos 30) (pos 51200) (pos 5) (pos 51200) (pos 5)
        ∷ boxed (pos 0) (pos 30) (pos 51200) (pos 5) (pos 51200) (pos 5) ∷ [] }
    ensures through_an_inline_element { shapes_by (block [] ∷ inline_with ((MarginTop, units (pos 99)) ∷ []) ∷ block ((MarginBottom, units (pos 30)) ∷ (Height, units (pos 5)) ∷ []) ∷ block ((MarginTop, units (pos 40)) ∷ []) ∷ [])
        (p 0 (node (p 1 (one (empty 2))) (one (empty 3))))
        ≡ boxed (pos 0) (pos 0) (pos 51200) (pos 45) (pos 51200) (pos 45) ∷ inline
        ∷ boxed (pos 0) (pos 0) (pos 51200) (pos 5) (pos 51200) (pos 5)
        ∷ boxed (pos 0) (pos 45) (pos 51200) (pos 0) (pos 51200) (pos 0) ∷ [] }
{}

/// An element without a box and all below it give nothing (CSS 2.1, section 9.2.4).
pub fn elements_without_boxes()
    ensures below { shapes_by (block [] ∷ without_box ∷ high 64 ∷ inline_with [] ∷ high 10 ∷ [])
        (p 0 (node (p 1 (node (empty 2) (one (empty 3)))) (one (empty 4))))
        ≡ boxed (pos 0) (pos 0) (pos 51200) (pos 10) (pos 51200) (pos 10) ∷ none ∷ none ∷ none
        ∷ boxed (pos 0) (pos 0) (pos 51200) (pos 10) (pos 51200) (pos 10) ∷ [] }
    ensures far_below { shapes_by (block [] ∷ without_box ∷ block [] ∷ high 64 ∷ []) (p 0 (one (p 1 (one (p 2 (one (empty 3)))))))
        ≡ boxed (pos 0) (pos 0) (pos 51200) (pos 0) (pos 51200) (pos 0) ∷ none ∷ none ∷ none ∷ [] }
    ensures a_text { shown (laid_by (block [] ∷ []) (p 0 (one (text 1 (codes "x"))))) (p 0 (one (text 1 (codes "x"))))
        ≡ record { id = 0; name = codes "p"; shape = boxed (pos 0) (pos 0) (pos 51200) (pos 0) (pos 51200) (pos 0) } ∷ [] }
{}

/// A block in an inline element is laid into the box around that, whatever the inline element's
/// margins and paddings are.
pub fn inline_elements()
    ensures among_blocks { shapes_by (block [] ∷ high 64 ∷ inline_with ((MarginLeft, units (pos 9)) ∷ (PaddingTop, units (pos 9)) ∷ (Width, units (pos 9)) ∷ []) ∷ high 128 ∷ high 32 ∷ high 64 ∷ [])
        (p 0 (node (empty 1) (node (p 2 (one (p 3 (one (empty 4))))) (one (empty 5)))))
        ≡ boxed (pos 0) (pos 0) (pos 51200) (pos 256) (pos 51200) (pos 256)
        ∷ boxed (pos 0) (pos 0) (pos 51200) (pos 64) (pos 51200) (pos 64) ∷ inline
        ∷ boxed (pos 0) (pos 64) (pos 51200) (pos 128) (pos 51200) (pos 128)
        ∷ boxed (pos 0) (pos 64) (pos 51200) (pos 32) (pos 51200) (pos 32)
        ∷ boxed (pos 0) (pos 192) (pos 51200) (pos 64) (pos 51200) (pos 64) ∷ [] }
    ensures in_one_another { shapes_by (block [] ∷ inline_with [] ∷ high 64 ∷ inline_with [] ∷ high 32 ∷ [])
        (p 0 (one (p 1 (node (empty 2) (one (p 3 (one (empty 4))))))))
        ≡ boxed (pos 0) (pos 0) (pos 51200) (pos 96) (pos 51200) (pos 96) ∷ inline
        ∷ boxed (pos 0) (pos 0) (pos 51200) (pos 64) (pos 51200) (pos 64) ∷ inline
        ∷ boxed (pos 0) (pos 64) (pos 51200) (pos 32) (pos 51200) (pos 32) ∷ [] }
    ensures definite_height { shapes_by (block ((Height, percent 100) ∷ []) ∷ inline_with [] ∷ block ((Height, percent 50) ∷ []) ∷ [])
        (p 0 (one (p 1 (one (empty 2)))))
        ≡ boxed (pos 0) (pos 0) (pos 51200) (pos 38400) (pos 51200) (pos 38400) ∷ inline
        ∷ boxed (pos 0) (pos 0) (pos 51200) (pos 19200) (pos 51200) (pos 19200) ∷ [] }
{}

/// Percentages of heights refer to the viewport and to boxes whose height is not `auto` (CSS 2.1,
/// section 10.5), those of widths to the content box around (section 10.2).
pub fn percentages()
    ensures heights { shapes_by (block ((Height, percent 50) ∷ []) ∷ block ((Height, percent 50) ∷ []) ∷ block [] ∷ block ((Height, percent 50) ∷ []) ∷ [])
        (p 0 (node (empty 1) (one (p 2 (one (empty 3))))))
        ≡ boxed (pos 0) (pos 0) (pos 51200) (pos 19200) (pos 51200) (pos 19200)
        ∷ boxed (pos 0) (pos 0) (pos 51200) (pos 9600) (pos 51200) (pos 9600)
        ∷ boxed (pos 0) (pos 9600) (pos 51200) (pos 0) (pos 51200) (pos 0)
        ∷ boxed (pos 0) (pos 9600) (pos 51200) (pos 0) (pos 51200) (pos 0) ∷ [] }
    ensures widths { shapes_by (block [] ∷ block ((Width, percent 50) ∷ (PaddingLeft, units (pos 100)) ∷ []) ∷ block ((Width, percent 25) ∷ []) ∷ [])
        (p 0 (one (p 1 (one (empty 2)))))
        ≡ boxed (pos 0) (pos 0) (pos 51200) (pos 0) (pos 51200) (pos 0)
        ∷ boxed (pos 0) (pos 0) (pos 25700) (pos 0) (pos 25600) (pos 0)
        ∷ boxed (pos 100) (pos 0) (pos 6400) (pos 0) (pos 6400) (pos 0) ∷ [] }
{}

/// The styles are those of the cascade: of whole pages.
#[tactic(auto, unfolding(css_model::specs::inner::Nesting::levels_of, css_model::specs::inner::Pieces::pieces_after, css_model::specs::inner::Fronts::parts_after))]
pub fn pages()
    ensures border_before_a_margin { shapes_on (page_with (codes "div,p{display:block}p{margin-top:1em;margin-bottom:1em}") (codes "")
        (parent 0 (codes "div") []
        (parent 1 (codes "div") ((codes "style", codes "border-top:1px solid") ∷ [])
        (leaf 2 (codes "p") ((codes "style", codes "height:1px") ∷ [])))))
        ≡ boxed (pos 0) (pos 0) (pos 51200) (pos 2176) (pos 51200) (pos 2176)
        ∷ boxed (pos 0) (pos 0) (pos 51200) (pos 1152) (pos 51200) (pos 1088)
        ∷ boxed (pos 0) (pos 1088) (pos 51200) (pos 64) (pos 51200) (pos 64) ∷ [] }
    ensures font_sizes { shapes_on (page_with (codes "div,p{display:block}") (codes "div{font-size:20px}p{font-size:10px;margin-top:1rem;height:2em}q{display:block;font-size:3em;height:1em;width:2rem}")
        (parent 0 (codes "div") [] (parent 1 (codes "p") [] (leaf 2 (codes "q") []))))
        ≡ boxed (pos 0) (pos 0) (pos 51200) (pos 2560) (pos 51200) (pos 2560)
        ∷ boxed (pos 0) (pos 1280) (pos 51200) (pos 1280) (pos 51200) (pos 1280)
        ∷ boxed (pos 0) (pos 1280) (pos 2560) (pos 1920) (pos 2560) (pos 1920) ∷ [] }
    ensures em_of_the_root { shapes_on (page_with (codes "") (codes "div{margin-left:1em;height:2rem}") (leaf 0 (codes "div") []))
        ≡ boxed (pos 1024) (pos 0) (pos 50176) (pos 2048) (pos 50176) (pos 2048) ∷ [] }
    ensures font_size_of_the_root { shapes_on (page_with (codes "") (codes "div{font-size:2rem;height:1em}") (leaf 0 (codes "div") []))
        ≡ boxed (pos 0) (pos 0) (pos 51200) (pos 2048) (pos 51200) (pos 2048) ∷ [] }
    ensures inherited { shapes_on (page_with (codes "") (codes "div{height:3px}p{display:block;height:inherit}") (parent 0 (codes "div") [] (leaf 1 (codes "p") [])))
        ≡ boxed (pos 0) (pos 0) (pos 51200) (pos 192) (pos 51200) (pos 192)
        ∷ boxed (pos 0) (pos 0) (pos 51200) (pos 192) (pos 51200) (pos 192) ∷ [] }
    ensures inline_root { shapes_on (page_with (codes "") (codes "") (parent 0 (codes "div") [] (leaf 1 (codes "p") [])))
        ≡ boxed (pos 0) (pos 0) (pos 51200) (pos 0) (pos 51200) (pos 0) ∷ inline ∷ [] }
{}
