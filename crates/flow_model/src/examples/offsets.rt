//! Offsets, heights of contents and baselines.
ghost use Rattle.flow_model.specs.declared.flow_item.FlowItem.TheVariants.{Child, Run};
ghost use Rattle.flow_model.specs.inner.Examples.{flat, lines, minus, most, solid, through};
ghost use Rattle.flow_model.specs.MarginSets.{alone, empty, seen};
ghost use Rattle.flow_model.specs.Offsets.{auto_height, last_baseline, offsets_below, placement};
ghost use Rattle.std.specs.Prelude.{◌≡◌, ◌∷◌, [], None, Some, false, pos, true};

/// An item stands below the last solid one, by all margins between.
pub fn offsets_of_items()
    ensures no_items { offsets_below flat [] [] ≡ [] }
    ensures apart { offsets_below flat [] (solid (pos 5) (pos 100) (pos 10) ∷ solid (pos 20) (pos 100) (pos 7) ∷ [])
        ≡ pos 0 ∷ pos 120 ∷ [] }
    ensures negative { offsets_below flat [] (solid (pos 5) (pos 100) (pos 10) ∷ solid (minus 30) (pos 100) (pos 7) ∷ [])
        ≡ pos 0 ∷ pos 80 ∷ [] }
    ensures through_an_empty_box { offsets_below flat [] (solid (pos 0) (pos 640) (pos 0) ∷ through (alone (pos 640)) ∷ through (alone (minus 256)) ∷ solid (pos 0) (pos 640) (pos 0) ∷ [])
        ≡ pos 0 ∷ pos 1280 ∷ pos 1024 ∷ pos 1024 ∷ [] }
    ensures top_and_bottom_set { offsets_below flat [] (solid (pos 0) (pos 100) (pos 0) ∷ Child 2 (pos 0) (alone (pos 10)) (seen (pos 10 ∷ pos 30 ∷ [])) true None ∷ solid (pos 0) (pos 100) (pos 0) ∷ [])
        ≡ pos 0 ∷ pos 110 ∷ pos 130 ∷ [] }
    ensures open_top { offsets_below flat [] (through (alone (pos 10)) ∷ solid (pos 20) (pos 100) (pos 0) ∷ [])
        ≡ pos 0 ∷ pos 0 ∷ [] }
    ensures closed_top { offsets_below (record flat { pt = pos 1 }) [] (through (alone (pos 10)) ∷ solid (pos 20) (pos 100) (pos 0) ∷ [])
        ≡ pos 10 ∷ pos 20 ∷ [] }
    ensures negative_at_a_closed_top { offsets_below (record flat { independent = true }) [] (solid (minus 20) (pos 100) (pos 0) ∷ [])
        ≡ minus 20 ∷ [] }
    ensures lines_have_no_margins { offsets_below (record flat { bt = pos 1 }) [] (lines (pos 100) ∷ solid (pos 20) (pos 50) (pos 30) ∷ lines (pos 100) ∷ [])
        ≡ pos 0 ∷ pos 120 ∷ pos 200 ∷ [] }
    ensures solid_without_height { offsets_below flat [] (solid (pos 0) (pos 100) (pos 10) ∷ solid (pos 20) (pos 0) (pos 20) ∷ solid (pos 10) (pos 100) (pos 0) ∷ [])
        ≡ pos 0 ∷ pos 120 ∷ pos 140 ∷ [] }
    ensures exact { offsets_below flat [] (solid (pos 0) (pos 5000000000) (pos 0) ∷ solid (pos 0) (pos 5000000000) (pos 0) ∷ solid (pos 0) (pos 0) (pos 0) ∷ [])
        ≡ pos 0 ∷ pos 5000000000 ∷ pos 10000000000 ∷ [] }
{}

/// The height of contents (CSS 2.1, section 10.6.3).
pub fn heights_of_contents()
    ensures nothing { auto_height flat [] ≡ pos 0 }
    ensures nothing_closed { auto_height (record flat { independent = true }) [] ≡ pos 0 }
    ensures open_bottom { auto_height flat (solid (pos 5) (pos 100) (pos 10) ∷ solid (pos 20) (pos 100) (pos 7) ∷ [])
        ≡ pos 220 }
    ensures closed_bottom { auto_height (record flat { pb = pos 1 }) (solid (pos 5) (pos 100) (pos 10) ∷ solid (pos 20) (pos 100) (pos 7) ∷ [])
        ≡ pos 227 }
    ensures closed_top { auto_height (record flat { pt = pos 1 }) (solid (pos 5) (pos 100) (pos 10) ∷ []) ≡ pos 105 }
    ensures after_the_last { auto_height (record flat { pb = pos 1 }) (solid (pos 5) (pos 100) (pos 10) ∷ through (alone (pos 30)) ∷ [])
        ≡ pos 130 }
    ensures after_the_last_and_out { auto_height flat (solid (pos 5) (pos 100) (pos 10) ∷ through (alone (pos 30)) ∷ [])
        ≡ pos 100 }
    ensures through_and_closed { auto_height (record flat { independent = true }) (through (alone (pos 10)) ∷ through (alone (minus 3)) ∷ [])
        ≡ pos 7 }
    ensures through_and_open_at_the_top { auto_height (record flat { pb = pos 1 }) (through (alone (pos 10)) ∷ []) ≡ pos 0 }
    ensures through_and_open_at_the_bottom { auto_height (record flat { pt = pos 1 }) (through (alone (pos 10)) ∷ []) ≡ pos 0 }
    ensures not_below_zero { auto_height (record flat { independent = true }) (solid (minus 300) (pos 100) (pos 10) ∷ [])
        ≡ pos 0 }
    ensures clamped { auto_height flat (solid (pos 0) (pos 5000000000) (pos 0) ∷ []) ≡ most }
    ensures last_solid { auto_height flat (solid (pos 0) (pos 500) (minus 400) ∷ solid (pos 0) (pos 50) (pos 0) ∷ [])
        ≡ pos 150 }
{}

/// The last item that has a baseline gives it.
pub fn baselines()
    ensures none { last_baseline flat (lines (pos 9) ∷ []) ≡ None }
    ensures lines { last_baseline (record flat { bt = pos 1; pt = pos 20 }) (Run (pos 900) (Some (pos 300)) ∷ []) ≡ Some (pos 321) }
    ensures child { last_baseline flat (lines (pos 100) ∷ Child 1 (pos 900) (alone (pos 10)) empty false (Some (pos 300)) ∷ through empty ∷ [])
        ≡ Some (pos 410) }
    ensures last { last_baseline flat (Run (pos 100) (Some (pos 50)) ∷ Run (pos 100) (Some (pos 50)) ∷ []) ≡ Some (pos 150) }
    ensures layout_contained { last_baseline (record flat { layout_contained = true }) (Run (pos 100) (Some (pos 50)) ∷ []) ≡ None }
    ensures clamped { last_baseline flat (lines (pos 5000000000) ∷ Run (pos 100) (Some (pos 50)) ∷ []) ≡ Some most }
    ensures negative { last_baseline flat (lines (pos 5) ∷ Run (pos 100) (Some (minus 50)) ∷ []) ≡ Some (minus 45) }
{}

/// A border keeps the margin of a child inside: the box with a border of 3 pixels at its top, and in
/// it a child with margins of 16 pixels.
pub fn placements()
    ensures border { placement (record flat { bt = pos 192 }) (solid (pos 1024) (pos 64) (pos 1024) ∷ [])
        ≡ record {
          offsets = pos 1024 ∷ [];
          auto_height = pos 1088;
          top = empty;
          bottom = alone (pos 1024);
          through = false;
          baseline = None;
        } }
    ensures root { placement (record flat { independent = true }) (Child 1 (pos 1280) empty (alone (pos 1024)) false None ∷ [])
        ≡ record {
          offsets = pos 0 ∷ [];
          auto_height = pos 2304;
          top = empty;
          bottom = empty;
          through = false;
          baseline = None;
        } }
    ensures empty_block { placement (record flat { mt = pos 10; mb = minus 4 }) []
        ≡ record {
          offsets = [];
          auto_height = pos 0;
          top = alone (pos 10);
          bottom = seen (pos 10 ∷ minus 4 ∷ []);
          through = true;
          baseline = None;
        } }
{}
