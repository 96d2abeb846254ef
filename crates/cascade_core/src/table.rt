//! For each property, the declaration that wins so far (CSS Cascade 4, section 6.1).
ghost use Rattle.cascade_core.specs.AppliedViews.{applied_view};
ghost use Rattle.cascade_core.specs.Tables.{IsTable, Offers, entry};
ghost use Rattle.cascade_core.specs.inner.Strength.{yields};
ghost use Rattle.cascade_model.specs.Kept.{of_property};
ghost use Rattle.std.specs.Option.{option_copied};
ghost use Rattle.std.specs.Prelude.{◌≡◌, [], ◌∷◌, IfOk, length};

use crate::applied::{Applied, is_stronger};
use port_core::{NoMemory, Seq};
use prop_table::{Prop, prop_place};
use std::alloc::Global;
use std::marker::Model;

/// For each property, the declaration that wins, if there is one. Contracts see the list of them.
#[derive(Debug, Drop)]
pub(crate) struct Table {
    entries: Seq<Option<Applied>>,
}

impl Model for Table {
    ghost use Rattle.cascade_core.specs.declared.applied.Applied.{Applied as applied};
    ghost use Rattle.std.specs.Prelude.{List, Option, ◌≡◌, length};

    ghost Value = { List (Option applied) };

    ghost use Rattle.css_tokens.specs.contracts.component.Component as a_component;
    ghost use Rattle.query_units.specs.contracts.length.Length as a_length;
    ghost use Rattle.std.specs.Coded.{codes};

    ghost coded = { Prim.hlevel (codes, a_length.the_row.coded, a_component.the_row.coded) };

    ghost view = { λ t. t.entries };

    ghost invariant = { λ t. length t.entries ≡ 45 };
}

impl Table {
    /// No declaration for each property.
    pub(crate) fn new(alloc: Global) -> Result<Table, NoMemory>
        ensures { IfOk result (λ t. IsTable t []) }
    {
        Ok(Table {
            entries: nothing(alloc)?,
        })
    }

    /// The declaration that wins for `prop`.
    pub(crate) fn get(&self, prop: Prop) -> Option<&Applied>
        ensures { option_copied result ≡ entry self.now prop }
    {
        self.entries.as_slice()[prop_place(prop)].as_ref()
    }

    /// The declarations, by the places of properties.
    pub(crate) fn as_slice(&self) -> &[Option<Applied>]
        ensures { result.now ≡ self.now }
    {
        self.entries.as_slice()
    }

    /// Takes a declaration of `prop` that appears later than all before it.
    pub(crate) fn offer(&mut self, prop: Prop, later: Applied)
        ensures { Offers self.old self.new (applied_view (of_property prop) later) }
    {
        let place = prop_place(prop);
        if yields(&self.entries.as_slice()[place], &later) {
            self.entries.set(place, Some(later));
        }
    }
}

/// So many places without a declaration.
fn nothing(alloc: Global) -> Result<Seq<Option<Applied>>, NoMemory>
    ensures none { IfOk result (λ entries. IsTable entries []) }
    ensures places { IfOk result (λ entries. length entries ≡ 45) }
{
    let mut entries = Seq::new(alloc);
    for i in 0..45_usize {
        entries.push(None)?;
    }
    Ok(entries)
}

/// Whether the one that wins so far yields to one that appears later.
fn yields(best: &Option<Applied>, later: &Applied) -> bool
    ensures { result ≡ yields best.now later.now }
{
    match best {
        None => true,
        Some(best) => !is_stronger(best, later),
    }
}
