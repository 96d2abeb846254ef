//! The values of elements of which nothing is declared but `display` (CSS Cascade 4, section 7.1).
ghost use Rattle.cascade_core.specs.Defaults.{AreDefaults, default_value};
ghost use Rattle.prop_table.specs.Styles.{style_view};
ghost use Rattle.prop_table.specs.Views.{final_view};
ghost use Rattle.std.specs.Prelude.{◌≡◌, IfOk, length, map};

use crate::shared::shared;
use port_core::{NoMemory, Seq};
use prop_table::{Computed, Final, Keyword, Prop, Style, all_props, initial};
use std::alloc::Global;
use std::rc::Rc;
use units64::Units;

/// The styles that most elements are close to. Their parts may be shared.
#[derive(Debug, Drop)]
pub(crate) struct Defaults {
    /// Of an element of which nothing is declared.
    pub(crate) inline: Style,
    /// Of one of which only `display: block` is declared. It shares all but the part with
    /// `display`.
    pub(crate) block: Style,
}

impl Defaults {
    /// The initial values, but no border has a width: none has a style.
    #[tactic(auto, using(crate::proofs::AreDefaults::inline_joined, crate::proofs::AreDefaults::block_joined))]
    pub(crate) fn new(alloc: Global) -> Result<Defaults, NoMemory>
        ensures { IfOk result AreDefaults }
    {
        let inline_boxes = part_of_defaults(alloc, Keyword::Inline, &all_props()[..15])?;
        let block_boxes = part_of_defaults(alloc, Keyword::Block, &all_props()[..15])?;
        let borders = part_of_defaults(alloc, Keyword::Block, &all_props()[15..27])?;
        let rest = part_of_defaults(alloc, Keyword::Block, &all_props()[27..])?;
        let inline = Style::of_parts(inline_boxes, borders.clone()?, rest.clone()?);
        let block = Style::of_parts(block_boxes, borders, rest);
        Ok(Defaults { inline, block })
    }

    /// The same, with shared parts. It allocates nothing.
    pub(crate) fn share(&self) -> Result<Defaults, NoMemory>
        ensures { IfOk result (λ d. d ≡ self.now) }
    {
        Ok(Defaults {
            inline: self.inline.share()?,
            block: self.block.share()?,
        })
    }
}

/// Those of some properties.
fn part_of_defaults(
    alloc: Global,
    display: Keyword,
    props: &[Prop],
) -> Result<Rc<Seq<Final>>, NoMemory>
    ensures values { IfOk result (λ part. style_view part.value
        ≡ map (default_value display) props.now) }
    ensures count { IfOk result (λ part. length part.value ≡ length props.now) }
{
    let mut part = Seq::new(alloc);
    for prop in props {
        part.push(default_value(alloc, display, *prop))?;
    }
    shared(alloc, part)
}

fn default_value(alloc: Global, display: Keyword, prop: Prop) -> Final
    ensures { final_view result ≡ default_value display prop }
{
    match prop {
        Prop::Display => Final::Keyword(display),
        Prop::BorderTopWidth
        | Prop::BorderRightWidth
        | Prop::BorderBottomWidth
        | Prop::BorderLeftWidth => Final::Length(Computed::Units(Units::new(0))),
        _ => initial(alloc, prop),
    }
}
