//! What an element sees of what is above it, which boxes are contents of which, and which entries meet
//! the equations.
ghost use Rattle.std.specs.Prelude.{◌≡◌, ◌∷◌, ◌==◌, if◌then◌else◌, ℕ, [], Option, None, Some, false, map, pos, true};
ghost use Rattle.cascade_model.specs.Defaulting.{font_size_in};
ghost use Rattle.cascade_model.specs.DocumentStyles.{initial_font_size};
ghost use Rattle.flow_model.specs.declared.box_kind.BoxKind.TheVariants.{Block, Inline, InlineBlock, NoBox};
ghost use Rattle.flow_model.specs.declared.containing.Containing.{Containing};
ghost use Rattle.flow_model.specs.declared.flow_item.FlowItem.TheVariants.{Child};
ghost use Rattle.flow_model.specs.MarginSets.{alone};
ghost use Rattle.flow_model.specs.inner.Examples.{block_in, block_in_both, inline_block_in};
ghost use Rattle.layout_model.specs.Above.{Above, Cascade, above_children, above_root, containing_children, font_size_above, kind_below, laid_as, viewport_containing};
ghost use Rattle.layout_model.specs.Assignments.{GivesNoOther, Holds, IsConsistent};
ghost use Rattle.layout_model.specs.Contents.{contents_of, in_flow, item_of, outer_pair_of};
ghost use Rattle.layout_model.specs.Entries.{Assignment, BoxResults, Entry};
ghost use Rattle.layout_model.specs.Equations.{HasBox, IsEntry};
ghost use Rattle.layout_model.specs.Setting.{Setting};
ghost use Rattle.layout_model.specs.inner.Examples.{block, empty, high, inline_block, inline_with, laid_by, one, p, root_box, root_entry, screen, units, width_at, without_box};
ghost use Rattle.page_model.specs.Document.{no_nodes, node, text};
ghost use Rattle.page_model.specs.Pages.{Page};
ghost use Rattle.value_model.specs.Values.{keyword};
ghost use Rattle.value_model.specs.declared.keyword.Keyword.TheVariants.{InlineSize};
ghost use Rattle.value_model.specs.declared.prop.Prop.TheVariants.{ContainerType, FontSize, MarginLeft, PaddingRight, Width};

/// The style of the parent, the font size of the root, and whether an element above has no box.
pub fn parts_from_above()
    ensures of_the_root { font_size_above above_root ≡ pos 1024 }
    ensures em { font_size_above (above_children above_root (block ((FontSize, units (pos 640)) ∷ [])) Block) ≡ pos 640 }
    ensures rem_of_the_root { (above_children above_root (block ((FontSize, units (pos 640)) ∷ [])) Block).rem ≡ pos 640 }
    ensures rem_stays { (above_children (record { parent = Some (block []); rem = pos 640; hidden = false }) (block ((FontSize, units (pos 9)) ∷ [])) Block).rem
        ≡ pos 640 }
    ensures hidden { (above_children above_root without_box NoBox).hidden ≡ true }
    ensures inline_is_not_hidden { (above_children above_root (inline_with []) Inline).hidden ≡ false }
    ensures no_box_below { kind_below (record above_root { hidden = true }) (block []) ≡ NoBox }
    ensures kinds { map (kind_below above_root) (block [] ∷ inline_with [] ∷ inline_block [] ∷ without_box ∷ [])
        ≡ Block ∷ Inline ∷ InlineBlock ∷ NoBox ∷ [] }
{}

/// The containing block of a root and of children (CSS 2.1, section 10.1).
pub fn containing_blocks()
    ensures viewport { viewport_containing screen ≡ block_in_both (pos 51200) (pos 38400) }
    ensures content_box { containing_children (block_in_both (pos 9) (pos 8)) (Some root_box) ≡ block_in (pos 51200) }
    ensures definite_height { containing_children (block_in (pos 9)) (Some (record root_box { used = record root_box.used { h = Some (pos 7) } }))
        ≡ block_in_both (pos 51200) (pos 7) }
    ensures limited_height { containing_children (block_in (pos 9)) (Some (record root_box { used = record root_box.used { h = Some (pos 7); max_h = Some (pos 3) } }))
        ≡ block_in_both (pos 51200) (pos 3) }
    ensures without_a_box { containing_children (block_in_both (pos 9) (pos 8)) None ≡ block_in_both (pos 9) (pos 8) }
    ensures inline_block { laid_as InlineBlock (block_in (pos 9)) ≡ inline_block_in (pos 9) }
    ensures block { laid_as Block (block_in (pos 9)) ≡ block_in (pos 9) }
{}

/// Which boxes are the contents of one (CSS 2.1, section 9.2.1), and what it asks of them.
pub fn contents()
    ensures block_itself { in_flow Block (pos 1 ∷ []) (pos 2 ∷ []) ≡ pos 1 ∷ [] }
    ensures contents_of_inline { in_flow Inline (pos 1 ∷ []) (pos 2 ∷ []) ≡ pos 2 ∷ [] }
    ensures not_inline_block { in_flow InlineBlock (pos 1 ∷ []) (pos 2 ∷ []) ≡ [] }
    ensures not_without_box { in_flow NoBox (pos 1 ∷ []) (pos 2 ∷ []) ≡ [] }
    ensures in_order { map (λ b. b.id) (contents_of (laid_by (block [] ∷ block [] ∷ inline_with [] ∷ block [] ∷ block [] ∷ block [] ∷ []) (p 0 (node (p 1 (one (empty 5))) (node (p 2 (one (empty 3))) (one (empty 4))))))
        (node (p 1 (one (empty 5))) (node (p 2 (one (empty 3))) (one (empty 4)))))
        ≡ 1 ∷ 3 ∷ 4 ∷ [] }
    ensures no_others { map (λ b. b.id) (contents_of (laid_by (block [] ∷ without_box ∷ inline_block [] ∷ block [] ∷ block [] ∷ block [] ∷ []) (p 0 (node (p 1 (one (empty 3))) (node (p 2 (one (empty 5))) (one (text 4 []))))))
        (node (p 1 (one (empty 3))) (node (p 2 (one (empty 5))) (one (text 4 [])))))
        ≡ [] }
    ensures given_nothing { contents_of (λ i. if i == 1 then None else Some root_entry) (one (p 1 (one (empty 2)))) ≡ [] }
    ensures given_no_box { contents_of (λ i. Some (record root_entry { box = None })) (one (empty 1)) ≡ [] }
    ensures outer_pair { outer_pair_of (record { id = 1; style = block ((MarginLeft, units (pos 7)) ∷ []); box = record root_box { inner = (pos 10, pos 20) } })
        ≡ (pos 17, pos 27) }
    ensures item { item_of (record {
      id = 1;
      style = block [];
      box = record root_box {
        height = pos 10;
        used = record root_box.used { pt = pos 1; bb = pos 2 };
        placement = record root_box.placement { top = alone (pos 3); bottom = alone (pos 4); through = true; baseline = Some (pos 5) };
      };
    })
        ≡ Child 1 (pos 13) (alone (pos 3)) (alone (pos 4)) true (Some (pos 5)) }
{}

/// Preferred widths come from contents, those of inline elements too, whatever is around.
pub fn preferred_widths()
    ensures shrink_to_fit { width_at (laid_by (block [] ∷ inline_block [] ∷ block ((Width, units (pos 70)) ∷ (PaddingRight, units (pos 5)) ∷ []) ∷ []) (p 0 (one (p 1 (one (empty 2)))))) 1
        ≡ Some (pos 75) }
    ensures through_an_inline_element { width_at (laid_by (block [] ∷ inline_block [] ∷ inline_with [] ∷ block ((Width, units (pos 70)) ∷ []) ∷ []) (p 0 (one (p 1 (one (p 2 (one (empty 3)))))))) 1
        ≡ Some (pos 70) }
    ensures of_a_block { width_at (laid_by (block [] ∷ inline_block [] ∷ block [] ∷ block ((Width, units (pos 70)) ∷ []) ∷ []) (p 0 (one (p 1 (one (p 2 (one (empty 3)))))))) 2
        ≡ Some (pos 70) }
    ensures without_contents { width_at (laid_by (block [] ∷ inline_block [] ∷ without_box ∷ []) (p 0 (one (p 1 (one (empty 2)))))) 1
        ≡ Some (pos 0) }
    ensures contained { width_at (laid_by (block [] ∷ inline_block ((ContainerType, keyword InlineSize) ∷ []) ∷ block ((Width, units (pos 70)) ∷ []) ∷ []) (p 0 (one (p 1 (one (empty 2)))))) 1
        ≡ Some (pos 0) }
    ensures of_no_box { width_at (laid_by (block [] ∷ inline_with [] ∷ []) (p 0 (one (empty 1)))) 1 ≡ None }
{}

/// A boxed element has a box, and any other has none.
pub fn boxes()
    ensures has_a_box { HasBox true (λ box. box.height ≡ pos 0) (Some root_box) }
    ensures wants_a_box { HasBox true (λ box. Unit {0}) None → ⊥ }
    ensures has_no_box { HasBox false (λ box. Unit {0}) None }
    ensures wants_no_box { HasBox false (λ box. Unit {0}) (Some root_box) → ⊥ }
{}

/// A root without contents, and what it is not given.
pub fn entries_of_a_root()
    ensures right { IsEntry above_root (viewport_containing screen) (block []) [] root_entry }
    ensures style { IsEntry above_root (viewport_containing screen) (high 1) [] root_entry → ⊥ }
    ensures kind { IsEntry above_root (viewport_containing screen) (block []) [] (record root_entry { kind = Inline }) → ⊥ }
    ensures no_box { IsEntry above_root (viewport_containing screen) (block []) [] (record root_entry { box = None }) → ⊥ }
    ensures hidden { IsEntry (record above_root { hidden = true }) (viewport_containing screen) (block []) [] root_entry → ⊥ }
    ensures width { IsEntry above_root (block_in (pos 9)) (block []) [] root_entry → ⊥ }
    ensures inner { IsEntry above_root (viewport_containing screen) (block []) [] (record root_entry { box = Some (record root_box { inner = (pos 1, pos 1) }) }) → ⊥ }
    ensures placement { IsEntry above_root (viewport_containing screen) (block []) [] (record root_entry { box = Some (record root_box { placement = record root_box.placement { through = true } }) }) → ⊥ }
    ensures height { IsEntry above_root (viewport_containing screen) (block []) [] (record root_entry { box = Some (record root_box { height = pos 1 }) }) → ⊥ }
    ensures height_of_its_own { IsEntry above_root (viewport_containing screen) (high 7) [] (record root_entry { style = high 7; box = Some (record root_box { used = record root_box.used { h = Some (pos 7) }; height = pos 7 }) }) }
    ensures height_of_contents { IsEntry above_root (viewport_containing screen) (high 7) [] (record root_entry { style = high 7; box = Some (record root_box { used = record root_box.used { h = Some (pos 7) } }) }) → ⊥ }
    ensures not_a_root { IsEntry (record above_root { parent = Some (block []) }) (viewport_containing screen) (block []) [] root_entry → ⊥ }
{}

/// The equations hold at each element, and what is not an element is given nothing.
pub fn consistent_assignments()
    ensures style_of_a_child { (styling : Cascade) (above : Above) (around : Containing) (a : Assignment)
        → Holds styling a above around (p 0 (node (empty 1) (one (empty 2))))
        → (e : Entry) × (d : Entry) × (a 0 ≡ Some e) × (a 2 ≡ Some d) × (d.style ≡ styling (above_children above e.style e.kind) 2) }
    ensures text_is_given_nothing { (a : Assignment) → GivesNoOther a (p 0 (one (text 1 []))) → a 1 ≡ None }
    ensures kind_of_the_root { (setting : Setting) (page : Page) (a : Assignment)
        → IsConsistent setting (record page { document = record { root = empty 0; next_id = 1 } }) a
        → (e : Entry) × (a 0 ≡ Some e) × (e.kind ≡ kind_below above_root e.style) }
{}
