//! Laws of edges that margins do not pass (CSS 2.1, section 8.3.1).
ghost use Rattle.flow_model.specs.Collapsing.{bottom_set, is_box_through, top_set};
ghost use Rattle.flow_model.specs.declared.flow_item.FlowItem.{FlowItem};
ghost use Rattle.flow_model.specs.declared.used.Used.{Used};
ghost use Rattle.flow_model.specs.MarginSets.{alone};
ghost use Rattle.std.specs.Prelude.{◌≡◌, ◌⊎◌, false, List, pos, true};

/// No margin of what is in a box passes its top edge where that has a border or padding, nor that of
/// an independent box: the margins there are its own.
pub fn nothing_passes_a_closed_top()
    ensures { (u : Used) (items : List FlowItem)
        → (u.independent ≡ true) ⊎ ((u.bt ≡ pos 0 → ⊥) ⊎ (u.pt ≡ pos 0 → ⊥))
        → top_set u items ≡ alone u.mt }
{}

/// The same of its bottom edge.
pub fn nothing_passes_a_closed_bottom()
    ensures { (u : Used) (items : List FlowItem)
        → (u.independent ≡ true) ⊎ ((u.bb ≡ pos 0 → ⊥) ⊎ (u.pb ≡ pos 0 → ⊥))
        → bottom_set u items ≡ alone u.mb }
{}

/// An edge, a least height or independence keeps the margins of a box apart.
pub fn margins_of_such_a_box_are_apart()
    ensures { (u : Used) (items : List FlowItem)
        → (u.independent ≡ true) ⊎ ((u.bt ≡ pos 0 → ⊥) ⊎ ((u.pt ≡ pos 0 → ⊥)
        ⊎ ((u.bb ≡ pos 0 → ⊥) ⊎ ((u.pb ≡ pos 0 → ⊥) ⊎ (u.min_h ≡ pos 0 → ⊥)))))
        → is_box_through u items ≡ false }
{}
