//! What a property gets: the value that wins, or what is inherited or initial (CSS Cascade 4,
//! sections 4.3, 4.4 and 7).
ghost use Rattle.cascade_core.specs.Choices.{choice_view};
ghost use Rattle.cascade_core.specs.Givens.{given_view};
ghost use Rattle.cascade_model.specs.Defaulting as model;
ghost use Rattle.prop_table.specs.Views.{value_view};
ghost use Rattle.std.specs.Option.{option_copied};
ghost use Rattle.std.specs.Prelude.{◌≡◌, Option, Some, option_map};

use crate::given::Given;
use crate::made::value_that_wins;
use prop_table::{Color, Prop, Value, WideKeyword, inherits, prop_place};

/// What a property gets.
#[derive(Clone, Copy, Debug)]
pub(crate) enum Choice<'a> {
    /// The value of the parent, or the initial one for the root.
    Inherited,
    /// The initial value.
    Initial,
    /// What this value computes to.
    Declared(&'a Value),
}

/// What `prop` gets: by the value that wins, or for `revert` by the one that wins among those of
/// the user agent.
pub(crate) fn choice_for<'a>(g: &Given<'a>, prop: Prop) -> Choice<'a>
    ensures { (parent : Option model.Style) → choice_view parent prop result
        ≡ model.choice parent (given_view g.now).winners prop }
{
    let best = value_that_wins(&g.winners.all, g.made.all.as_slice(), prop);
    if is_revert(best) {
        let among_user_agent = &g.winners.user_agent;
        choice_of(
            prop,
            value_that_wins(among_user_agent, g.made.user_agent.as_slice(), prop),
        )
    } else {
        choice_of(prop, best)
    }
}

fn is_revert(best: Option<&Value>) -> bool
    ensures { result ≡ model.is_revert (option_map value_view (option_copied best.entry)) }
{
    match best {
        Some(best) => is_revert_value(best),
        None => false,
    }
}

fn is_revert_value(value: &Value) -> bool
    ensures { result ≡ model.is_revert (Some (value_view value.now)) }
{
    match value {
        Value::Wide(WideKeyword::Revert) => true,
        _ => false,
    }
}

fn choice_of(prop: Prop, best: Option<&Value>) -> Choice<'_>
    ensures { (parent : Option model.Style) → choice_view parent prop result
        ≡ model.choice_of parent prop (option_map value_view (option_copied best.entry)) }
{
    match best {
        Some(best) => choice_of_value(prop, best),
        None => unset(prop),
    }
}

/// What a property gets that is unset.
fn unset<'a>(prop: Prop) -> Choice<'a>
    ensures { (parent : Option model.Style) → choice_view parent prop result
        ≡ model.ready (model.unset_value parent prop) }
{
    if inherits(prop) {
        Choice::Inherited
    } else {
        Choice::Initial
    }
}

/// What a value that wins gives. `currentcolor` for `color` is `inherit` (CSS Color 4, section
/// 6.4).
fn choice_of_value(prop: Prop, value: &Value) -> Choice<'_>
    ensures { (parent : Option model.Style) → choice_view parent prop result
        ≡ model.choice_of_value parent prop (value_view value.now) }
{
    match value {
        Value::Wide(wide) => wide_choice(prop, *wide),
        Value::Color(Color::CurrentColor) => {
            if prop_place(prop) == prop_place(Prop::Color) {
                Choice::Inherited
            } else {
                Choice::Declared(value)
            }
        }
        _ => Choice::Declared(value),
    }
}

/// What a CSS-wide keyword stands for, where no other origin is left for `revert`.
fn wide_choice<'a>(prop: Prop, wide: WideKeyword) -> Choice<'a>
    ensures { (parent : Option model.Style) → choice_view parent prop result
        ≡ model.keyword_choice parent prop wide }
{
    match wide {
        WideKeyword::Inherit => Choice::Inherited,
        WideKeyword::Initial => Choice::Initial,
        WideKeyword::Unset | WideKeyword::Revert => unset(prop),
    }
}
