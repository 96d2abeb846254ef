//! The style of an element (CSS Cascade 4, section 4.4; CSS Custom Properties 1, section 3).
ghost use Rattle.cascade_core.specs.Givens.{given_view};
ghost use Rattle.cascade_core.specs.StyledView.{styled_view};
ghost use Rattle.cascade_core.specs.WinnersView.{cascaded_view};
ghost use Rattle.cascade_core.specs.inner.Mades.{AreMade};
ghost use Rattle.cascade_model.specs.StyleEquation.{style_of};
ghost use Rattle.cascade_model.specs.Styling.{styling_of};
ghost use Rattle.custom_model.specs.NamedValues.{value_named};
ghost use Rattle.custom_props.specs.EnvView.{env_view};
ghost use Rattle.prop_table.specs.Styles.{style_view};
ghost use Rattle.std.specs.Option.{option_copied};
ghost use Rattle.std.specs.Prelude.{◌≡◌, ◌++◌, ◌∷◌, [], IfOk, OnOk, OnErr, option_map};
ghost use Rattle.stream_model.specs.Ledger.{pair};
ghost use Rattle.stream_model.specs.declared.kind.Kind.TheVariants as kinds;

use crate::answer_list::Answers;
use crate::environments::environment;
use crate::given::{Given, Made};
use crate::made::made_of;
use crate::parts::part;
use crate::resolving::own_bases;
use crate::styled::Styled;
use crate::winners::Winners;
use custom_props::Env;
use port_core::{Kind, NoMemory, NodeId, Steps};
use prop_table::{Bases, Style, all_props};
use std::alloc::Global;

/// Returns the style of the element `id` and its environment, where these declarations win, and logs
/// it. `b` is what lengths in `font-size` refer to.
///
/// # Errors
///
/// `NoMemory`; then nothing is logged.
pub fn resolve<L: Drop>(
    alloc: Global,
    id: NodeId,
    w: &Winners,
    parent: Option<&Styled<L>>,
    b: &Bases,
    _answers: &Answers,
    steps: &mut Steps<L>,
) -> Result<Styled<L>, NoMemory>
    ensures style { IfOk result (λ s. styled_view s ≡ styling_of (record {
      cascaded = cascaded_view w.now;
      parent = option_map styled_view (option_copied parent.entry);
      bases = b.now;
    })) }
    ensures logged { OnOk result (steps.new ≡ steps.old ++ pair kinds.Style id ∷ []) }
    ensures kept { OnErr result (steps.new ≡ steps.old) }
{
    let env = environment(alloc, &w.custom, parent)?;
    let made = made_values(alloc, w, &env)?;
    let given = Given {
        winners: w,
        made: &made,
        parent: style_of_parent(parent),
        bases: *b,
    };
    let style = style(alloc, &given)?;
    steps.tick(Kind::Style, id);
    Ok(Styled {
        style,
        env,
        bases: *b,
        key: None,
    })
}

impl<L> Styled<L> {
    /// Returns the style.
    pub fn style(&self) -> &Style
        ensures { style_view result.now ≡ (styled_view self.now).style }
    {
        &self.style
    }

    /// Returns the environment: the custom properties with their computed values.
    pub fn env(&self) -> &Env
        ensures { env_view result.now ≡ (styled_view self.now).environment }
    {
        &self.env
    }
}

/// What values that are kept whole are after substitution.
fn made_values(alloc: Global, w: &Winners, env: &Env) -> Result<Made, NoMemory>
    ensures all { IfOk result (λ m. AreMade (value_named (env_view env.now)) w.now.all m.all) }
    ensures user_agent { IfOk result
        (λ m. AreMade (value_named (env_view env.now)) w.now.user_agent m.user_agent) }
{
    Ok(Made {
        all: made_of(alloc, &w.all, env)?,
        user_agent: made_of(alloc, &w.user_agent, env)?,
    })
}

fn style_of_parent<L>(parent: Option<&Styled<L>>) -> Option<&Style>
    ensures { option_map style_view (option_copied result)
        ≡ option_map (λ s. s.style) (option_map styled_view (option_copied parent.entry)) }
{
    match parent {
        Some(parent) => Some(&parent.style),
        None => None,
    }
}

/// The style that these make.
#[tactic(auto, using(crate::proofs::StyleParts::parts_joined))]
fn style(alloc: Global, g: &Given<'_>) -> Result<Style, NoMemory>
    ensures { IfOk result (λ s. style_view s ≡ style_of (given_view g.now)) }
{
    let own = own_bases(alloc, g)?;
    let near = nearest(g);
    let defaults = &g.winners.defaults;
    let boxes = part(
        alloc,
        g,
        &own,
        &all_props()[..15],
        &[
            near.boxes(),
            defaults.inline.boxes(),
            defaults.block.boxes(),
        ],
    )?;
    let borders = part(
        alloc,
        g,
        &own,
        &all_props()[15..27],
        &[near.borders(), defaults.block.borders()],
    )?;
    let rest = part(
        alloc,
        g,
        &own,
        &all_props()[27..],
        &[near.rest(), defaults.block.rest()],
    )?;
    Ok(Style::of_parts(boxes, borders, rest))
}

/// The style whose parts are most often the same: that of the parent, or for the root, a block,
/// that of a block of which nothing else is declared.
fn nearest<'a>(g: &Given<'a>) -> &'a Style {
    match g.parent {
        Some(parent) => parent,
        None => &g.winners.defaults.block,
    }
}
