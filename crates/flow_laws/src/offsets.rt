//! Laws of offsets (CSS 2.1, section 9.4.1).
ghost use Rattle.flow_laws.specs.Plain.{IsPlain};
ghost use Rattle.flow_model.specs.declared.flow_item.FlowItem.{FlowItem};
ghost use Rattle.flow_model.specs.declared.used.Used.{Used};
ghost use Rattle.flow_model.specs.Offsets.{item_offset};
ghost use Rattle.std.specs.List.{All};
ghost use Rattle.std.specs.Prelude.{◌≤ℤ◌, ◌∷◌, List};

/// Where no margin is negative, an item stands at or below the one before it.
pub fn items_stand_below_each_other()
    ensures { (u : Used) (above : List FlowItem) (item next : FlowItem)
        → All IsPlain above → IsPlain item → IsPlain next
        → item_offset u above item ≤ℤ item_offset u (item ∷ above) next }
{}
