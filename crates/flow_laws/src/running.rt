//! Laws of sets of margins by place: they can be carried along from item to item.
ghost use Rattle.flow_model.specs.Collapsing.{bottom_of, has_solid, is_through, sets_above, sets_to_solid, top_of};
ghost use Rattle.flow_model.specs.declared.flow_item.FlowItem.{FlowItem};
ghost use Rattle.flow_model.specs.MarginSets.{joined};
ghost use Rattle.std.specs.Prelude.{◌≡◌, ◌∷◌, ◌++◌, [], if◌then◌else◌, List};

/// The margins between the last solid item and a place.
pub fn margins_above_are_carried_along()
    ensures { (item : FlowItem) (above : List FlowItem)
        → joined (sets_above (item ∷ above))
        ≡ (if is_through item then joined (bottom_of item ∷ joined (sets_above above) ∷ [])
        else joined (bottom_of item ∷ [])) }
{}

/// The margins up to the first solid item.
pub fn margins_to_the_first_solid_item_are_carried_along()
    ensures { (items : List FlowItem) (item : FlowItem)
        → joined (sets_to_solid (items ++ item ∷ []))
        ≡ (if has_solid items then joined (sets_to_solid items)
        else joined (joined (sets_to_solid items)
        ∷ (if is_through item then bottom_of item else top_of item) ∷ [])) }
{}
