//! Which margins adjoin.
ghost use Rattle.flow_model.specs.Collapsing.{bottom_set, has_solid, is_bottom_open, is_box_through, is_top_open, lead, sets_above, sets_to_solid, top_set, trail};
ghost use Rattle.flow_model.specs.inner.Examples.{flat, lines, minus, solid, through};
ghost use Rattle.flow_model.specs.MarginSets.{alone, empty, seen};
ghost use Rattle.std.specs.Prelude.{◌≡◌, ◌∷◌, [], Some, false, pos, true};

/// The top margin of a box adjoins that of its first child, unless an edge or independence is
/// between.
pub fn open_tops()
    ensures open { is_top_open flat ≡ true }
    ensures border { is_top_open (record flat { bt = pos 1 }) ≡ false }
    ensures padding { is_top_open (record flat { pt = pos 1 }) ≡ false }
    ensures independent { is_top_open (record flat { independent = true }) ≡ false }
    ensures edges_below { is_top_open (record flat { bb = pos 1; pb = pos 1 }) ≡ true }
    ensures height { is_top_open (record flat { h = Some (pos 9); min_h = pos 9; size_contained = true }) ≡ true }
{}

/// The same of the bottom margin and the last child; and the height is `auto` and has no least one.
pub fn open_bottoms()
    ensures open { is_bottom_open flat ≡ true }
    ensures border { is_bottom_open (record flat { bb = pos 1 }) ≡ false }
    ensures padding { is_bottom_open (record flat { pb = pos 1 }) ≡ false }
    ensures independent { is_bottom_open (record flat { independent = true }) ≡ false }
    ensures height { is_bottom_open (record flat { h = Some (pos 9) }) ≡ false }
    ensures no_height { is_bottom_open (record flat { h = Some (pos 0) }) ≡ false }
    ensures least { is_bottom_open (record flat { min_h = pos 1 }) ≡ false }
    ensures size_contained { is_bottom_open (record flat { size_contained = true }) ≡ false }
    ensures edges_above { is_bottom_open (record flat { bt = pos 1; pt = pos 1 }) ≡ true }
    ensures greatest { is_bottom_open (record flat { max_h = Some (pos 1) }) ≡ true }
{}

/// The margins of a box adjoin each other where nothing is between.
pub fn boxes_that_margins_pass_through()
    ensures empty { is_box_through flat [] ≡ true }
    ensures no_height { is_box_through (record flat { h = Some (pos 0) }) [] ≡ true }
    ensures height { is_box_through (record flat { h = Some (pos 1) }) [] ≡ false }
    ensures least { is_box_through (record flat { min_h = pos 1 }) [] ≡ false }
    ensures greatest { is_box_through (record flat { max_h = Some (pos 1) }) [] ≡ true }
    ensures top_border { is_box_through (record flat { bt = pos 1 }) [] ≡ false }
    ensures top_padding { is_box_through (record flat { pt = pos 1 }) [] ≡ false }
    ensures bottom_border { is_box_through (record flat { bb = pos 1 }) [] ≡ false }
    ensures bottom_padding { is_box_through (record flat { pb = pos 1 }) [] ≡ false }
    ensures independent { is_box_through (record flat { independent = true }) [] ≡ false }
    ensures size_contained { is_box_through (record flat { size_contained = true }) [] ≡ true }
    ensures sides { is_box_through (record flat { bl = pos 1; pl = pos 1; pr = pos 1; br = pos 1; w = pos 1 }) [] ≡ true }
    ensures through_children { is_box_through flat (through (alone (pos 5)) ∷ through empty ∷ []) ≡ true }
    ensures solid_child { is_box_through flat (through empty ∷ solid (pos 0) (pos 0) (pos 0) ∷ []) ≡ false }
    ensures lines { is_box_through flat (lines (pos 0) ∷ through empty ∷ []) ≡ false }
{}

/// The sets that reach the top and the bottom of the contents.
pub fn sets_by_place()
    ensures no_items { sets_to_solid [] ≡ [] }
    ensures to_solid { sets_to_solid (through (alone (pos 1)) ∷ through (alone (pos 2)) ∷ solid (pos 3) (pos 9) (pos 4) ∷ through (alone (pos 5)) ∷ solid (pos 6) (pos 9) (pos 7) ∷ [])
        ≡ alone (pos 1) ∷ alone (pos 2) ∷ alone (pos 3) ∷ [] }
    ensures to_lines { sets_to_solid (through (alone (pos 1)) ∷ lines (pos 9) ∷ solid (pos 6) (pos 9) (pos 7) ∷ [])
        ≡ alone (pos 1) ∷ empty ∷ [] }
    ensures without_solid { sets_to_solid (through (alone (pos 1)) ∷ through (alone (pos 2)) ∷ [])
        ≡ alone (pos 1) ∷ alone (pos 2) ∷ [] }
    ensures above { sets_above (through (alone (pos 1)) ∷ through (alone (pos 2)) ∷ solid (pos 3) (pos 9) (pos 4) ∷ through (alone (pos 5)) ∷ [])
        ≡ alone (pos 1) ∷ alone (pos 2) ∷ alone (pos 4) ∷ [] }
    ensures solid { has_solid (through empty ∷ lines (pos 0) ∷ []) ≡ true }
    ensures no_solid { has_solid (through empty ∷ []) ≡ false }
    ensures lead { lead (through (alone (pos 1)) ∷ solid (minus 3) (pos 9) (pos 4) ∷ solid (pos 6) (pos 9) (pos 7) ∷ [])
        ≡ seen (pos 1 ∷ minus 3 ∷ []) }
    ensures trail { trail flat (solid (pos 6) (pos 9) (pos 7) ∷ through (alone (pos 8)) ∷ solid (pos 3) (pos 9) (minus 4) ∷ through (alone (pos 1)) ∷ [])
        ≡ seen (minus 4 ∷ pos 1 ∷ []) }
    ensures trail_of_through { trail (record flat { bt = pos 1 }) (through (alone (pos 1)) ∷ through (alone (minus 2)) ∷ [])
        ≡ seen (pos 1 ∷ minus 2 ∷ []) }
    ensures trail_of_open { trail flat (through (alone (pos 1)) ∷ through (alone (minus 2)) ∷ []) ≡ empty }
{}

/// The sets that adjoin the edges of a box with the margins 10 and 20.
pub fn sets_of_boxes()
    ensures top { top_set (record flat { mt = pos 10; mb = pos 20 }) (solid (pos 15) (pos 9) (pos 25) ∷ [])
        ≡ seen (pos 10 ∷ pos 15 ∷ []) }
    ensures closed_top { top_set (record flat { mt = pos 10; mb = pos 20; bt = pos 1 }) (solid (pos 15) (pos 9) (pos 25) ∷ [])
        ≡ alone (pos 10) }
    ensures bottom { bottom_set (record flat { mt = pos 10; mb = pos 20 }) (solid (pos 15) (pos 9) (pos 25) ∷ [])
        ≡ seen (pos 20 ∷ pos 25 ∷ []) }
    ensures closed_bottom { bottom_set (record flat { mt = pos 10; mb = pos 20; h = Some (pos 5) }) (solid (pos 15) (pos 9) (pos 25) ∷ [])
        ≡ alone (pos 20) }
    ensures through { bottom_set (record flat { mt = pos 10; mb = minus 20 }) (through (alone (pos 15)) ∷ [])
        ≡ seen (pos 10 ∷ minus 20 ∷ pos 15 ∷ []) }
    ensures through_without_height { bottom_set (record flat { mt = pos 10; mb = pos 20; h = Some (pos 0) }) (through (alone (pos 35)) ∷ [])
        ≡ alone (pos 35) }
    ensures top_of_through { top_set (record flat { mt = pos 10; mb = pos 20 }) (through (alone (pos 15)) ∷ [])
        ≡ alone (pos 15) }
    ensures bottom_under_a_border { bottom_set (record flat { mt = pos 10; mb = pos 20; bt = pos 1 }) (through (alone (pos 35)) ∷ [])
        ≡ alone (pos 35) }
    ensures closed_top_of_open_bottom { top_set (record flat { mt = pos 10; mb = pos 20; bt = pos 1 }) (through (alone (pos 35)) ∷ [])
        ≡ alone (pos 10) }
    ensures only_at_the_top { bottom_set (record flat { mt = pos 10; mb = pos 20; h = Some (pos 5) }) (through (alone (pos 35)) ∷ [])
        ≡ alone (pos 20) }
    ensures not_twice { bottom_set (record flat { mt = pos 10; mb = pos 20; min_h = pos 1 }) (through (alone (pos 35)) ∷ [])
        ≡ alone (pos 20) }
{}
