//! The declarations that win for an element (CSS Cascade 4, sections 4.2 and 6.1).
ghost use Rattle.cascade_core.specs.AppliedViews.{all_placed, placed};
ghost use Rattle.cascade_core.specs.Views.{all_kept_view, kept_view};
ghost use Rattle.cascade_core.specs.inner.BothTables.{AreWinners, Takes};
ghost use Rattle.cascade_model.specs.Kept as model;
ghost use Rattle.cascade_model.specs.declared.origin.Origin.TheVariants as origin;
ghost use Rattle.std.specs.Prelude.{◌≡◌, [], ◌∷◌, IfOk, OnOk};

use crate::applied::Place;
use crate::customs::{CustomWinner, Customs};
use crate::defaults::Defaults;
use crate::kept::{Kept, Target};
use crate::table::Table;
use cascade_model::Origin;
use custom_props::Declared;
use port_core::{NoMemory, Seq, Text};
use prop_table::Prop;
use std::alloc::Global;
use std::rc::Rc;

/// For each property the declaration that wins, and the one that wins among those of the user
/// agent; and those that win for custom properties.
#[derive(Debug, Drop)]
pub(crate) struct BothTables {
    pub(crate) all: Table,
    pub(crate) user_agent: Table,
    pub(crate) customs: Customs,
}

/// The cascaded values: for each property the value that wins, and the one that wins among those of
/// the user agent; and those that win for custom properties.
#[derive(Debug, Drop)]
pub struct Winners {
    pub(crate) all: Table,
    pub(crate) user_agent: Table,
    pub(crate) custom: Declared,
    /// The styles of elements of which nothing is declared but `display`, to be shared.
    pub(crate) defaults: Defaults,
}

/// No declaration.
pub(crate) fn no_winners(alloc: Global) -> Result<BothTables, NoMemory>
    ensures { IfOk result (λ tables. AreWinners tables []) }
{
    Ok(BothTables {
        all: Table::new(alloc)?,
        user_agent: Table::new(alloc)?,
        customs: Customs::new(alloc),
    })
}

/// Takes declarations that stand in one place, one after another.
pub(crate) fn take_all(tables: &mut BothTables, place: Place, kept: &[Kept]) -> Result<(), NoMemory>
    ensures { OnOk result (Takes tables.old tables.new
        (all_placed place (all_kept_view kept.now))) }
{
    for one in kept {
        take(tables, place, one)?;
    }
    Ok(())
}

/// Takes one declaration.
fn take(tables: &mut BothTables, place: Place, kept: &Kept) -> Result<(), NoMemory>
    ensures { OnOk result (Takes tables.old tables.new (placed place (kept_view kept.now) ∷ [])) }
{
    match &kept.target {
        Target::Property(prop) => take_of_property(tables, place, *prop, kept),
        Target::Custom(name) => take_of_custom(tables, place, name, kept),
    }
}

/// Takes the declaration of a custom property.
#[tactic(auto, using(crate::proofs::AreWinners::taken_by_custom))]
fn take_of_custom(
    tables: &mut BothTables,
    place: Place,
    name: &Rc<Text>,
    kept: &Kept,
) -> Result<(), NoMemory>
    requires { (kept_view kept.now).target ≡ model.of_custom name.now.value }
    ensures { OnOk result (Takes tables.old tables.new (placed place (kept_view kept.now) ∷ [])) }
{
    let applied = place.applied(kept)?;
    let name = name.clone()?;
    tables.customs.offer(CustomWinner { name, applied })
}

/// Takes the declaration of a property.
fn take_of_property(
    tables: &mut BothTables,
    place: Place,
    prop: Prop,
    kept: &Kept,
) -> Result<(), NoMemory>
    requires { (kept_view kept.now).target ≡ model.of_property prop }
    ensures { OnOk result (Takes tables.old tables.new (placed place (kept_view kept.now) ∷ [])) }
{
    match place.origin {
        Origin::UserAgent => take_of_user_agent(tables, place, prop, kept),
        Origin::Author => take_of_author(tables, place, prop, kept),
    }
}

fn take_of_user_agent(
    tables: &mut BothTables,
    place: Place,
    prop: Prop,
    kept: &Kept,
) -> Result<(), NoMemory>
    requires target { (kept_view kept.now).target ≡ model.of_property prop }
    requires origin { place.origin ≡ origin.UserAgent }
    ensures { OnOk result (Takes tables.old tables.new (placed place (kept_view kept.now) ∷ [])) }
{
    let alone = place.applied(kept)?;
    let among_all = place.applied(kept)?;
    tables.user_agent.offer(prop, alone);
    tables.all.offer(prop, among_all);
    Ok(())
}

#[tactic(auto, using(crate::proofs::AreWinners::taken_by_one))]
fn take_of_author(
    tables: &mut BothTables,
    place: Place,
    prop: Prop,
    kept: &Kept,
) -> Result<(), NoMemory>
    requires target { (kept_view kept.now).target ≡ model.of_property prop }
    requires origin { place.origin ≡ origin.Author }
    ensures { OnOk result (Takes tables.old tables.new (placed place (kept_view kept.now) ∷ [])) }
{
    let applied = place.applied(kept)?;
    tables.all.offer(prop, applied);
    Ok(())
}
