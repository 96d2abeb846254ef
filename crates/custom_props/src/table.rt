//! The entries of the declared names, found in an order in which each name stands after those to which
//! it refers (CSS Custom Properties 1, sections 2.3 and 3.1).
ghost use Rattle.custom_model.specs.NamedValues.{are_in_order, names_of, value_named};
ghost use Rattle.custom_props.specs.EnvView.{env_view};
ghost use Rattle.custom_props.specs.Views.{values_view};
ghost use Rattle.custom_props.specs.inner.EntryViews.{entry_view};
ghost use Rattle.custom_props.specs.inner.Entries.{entries_of};
ghost use Rattle.custom_props.specs.inner.Graphs.{IsOrder, Leads, is_marked};
ghost use Rattle.custom_props.specs.inner.Graphs as graphs;
ghost use Rattle.custom_props.specs.inner.Tables.{Fills, IsFilling, IsTable};
ghost use Rattle.std.specs.Prelude.{◌≡◌, ◌<◌, [], IfOk, OnOk, false, length, map, replicate, slice_set, true, ℕ};
ghost use Rattle.css_tokens.specs.Nested.{components_view};
ghost use Rattle.custom_model.specs.Environments as model;

use crate::entries::inherited_entry;
use crate::entry::Entry;
use crate::entry_values::entry_of_declared;
use crate::env::Env;
use crate::graphs::graph_of;
use crate::known::Known;
use crate::named_value::NamedValue;
use crate::orders::order_of;
use crate::searches::{is_on_cycle_beside, no_marks};
use port_core::{NoMemory, Seq};
use std::alloc::Global;

/// The entries of the declared names, by their places, while they are found.
#[derive(Drop)]
pub(crate) struct Table {
    /// The entry of each name that was come to and is on no cycle; of any other that of the parent.
    pub(crate) entries: Seq<Entry>,
    /// The places of names that are known to be on no cycle.
    pub(crate) off_cycles: Seq<bool>,
}

/// The entries of the declared names.
pub(crate) fn entries_of_declared(
    alloc: Global,
    declared: &Env,
    inherited: &Env,
) -> Result<Seq<Entry>, NoMemory>
    ensures { IfOk result (λ entries. IsTable
        (record { declared = env_view declared.now; inherited = env_view inherited.now }) entries) }
{
    let graph = graph_of(alloc, declared.values.as_slice())?;
    let order = order_of(alloc, graph.as_slice())?;
    let mut table = table_of_parent(alloc, declared, inherited)?;
    fill_all(
        alloc,
        graph.as_slice(),
        order.as_slice(),
        declared,
        inherited,
        &mut table,
    )?;
    Ok(table.entries)
}

/// Puts the entries of the declared names in these places.
fn fill_all(
    alloc: Global,
    graph: &[Seq<usize>],
    order: &[usize],
    declared: &Env,
    inherited: &Env,
    table: &mut Table,
) -> Result<(), NoMemory>
    requires graph { graph.now ≡ graphs.graph_of (env_view declared.now) }
    requires order { IsOrder graph.now order.now }
    requires filling { IsFilling
        (record { declared = env_view declared.now; inherited = env_view inherited.now })
        [] table.old }
    ensures { OnOk result (IsFilling
        (record { declared = env_view declared.now; inherited = env_view inherited.now })
        order.now table.new) }
{
    for index in 0..order.len() {
        fill(alloc, graph, order[index], declared, inherited, table)?;
    }
    Ok(())
}

/// Puts the entry of the declared name in a place, unless it is on a cycle.
fn fill(
    alloc: Global,
    graph: &[Seq<usize>],
    place: usize,
    declared: &Env,
    inherited: &Env,
    table: &mut Table,
) -> Result<(), NoMemory>
    requires graph { graph.now ≡ graphs.graph_of (env_view declared.now) }
    requires off_cycles { (y : ℕ) → is_marked table.old.off_cycles y ≡ true
        → Leads graph.now y y → ⊥ }
    requires same_length { length table.old.entries ≡ length (env_view declared.now) }
    requires same_marks { length table.old.off_cycles ≡ length (env_view declared.now) }
    ensures { OnOk result (Fills
        (record { declared = env_view declared.now; inherited = env_view inherited.now })
        place table.old table.new) }
{
    let Some(declaration) = declared.values.get(place) else {
        return Ok(());
    };
    if is_on_cycle_beside(alloc, graph, place, &table.off_cycles)? {
        return Ok(());
    }
    let known = Known {
        declared: declared.values.as_slice(),
        table: table.entries.as_slice(),
        inherited: inherited.values.as_slice(),
    };
    let entry = entry_of_declaration(alloc, declaration, &known)?;
    put(place, entry, table);
    Ok(())
}

/// Puts the entry of a name that is on no cycle.
fn put(place: usize, entry: Entry, table: &mut Table)
    requires entries { place < length table.old.entries }
    requires marks { place < length table.old.off_cycles }
    ensures entries { table.new.entries ≡ slice_set table.old.entries place entry }
    ensures marks { table.new.off_cycles ≡ slice_set table.old.off_cycles place true }
{
    table.entries.set(place, entry);
    table.off_cycles.set(place, true);
}

/// The entry of a declared name by the entries that are known.
fn entry_of_declaration(
    alloc: Global,
    declaration: &NamedValue,
    known: &Known<'_>,
) -> Result<Entry, NoMemory>
    ensures { IfOk result (λ e. entry_view e ≡ model.entry_of_declared (entries_of known.now)
        (value_named (values_view known.now.inherited.now) declaration.now.name)
        (components_view declaration.now.value.value)) }
{
    let parent = inherited_entry(known.inherited, &declaration.name)?;
    entry_of_declared(alloc, &parent, &declaration.value, known)
}

/// For each declared name the entry of the parent, before any is found.
fn table_of_parent(alloc: Global, declared: &Env, inherited: &Env) -> Result<Table, NoMemory>
    ensures entries { IfOk result (λ t. map entry_view t.entries
        ≡ map (λ v. value_named (env_view inherited.now) v.0) (env_view declared.now)) }
    ensures marks { IfOk result (λ t. t.off_cycles
        ≡ replicate (length (env_view declared.now)) false) }
{
    let entries = inherited_entries(
        alloc,
        declared.values.as_slice(),
        inherited.values.as_slice(),
    )?;
    let off_cycles = no_marks(alloc, declared.len())?;
    Ok(Table {
        entries,
        off_cycles,
    })
}

/// The inherited entries of the declared names.
fn inherited_entries(
    alloc: Global,
    declared: &[NamedValue],
    inherited: &[NamedValue],
) -> Result<Seq<Entry>, NoMemory>
    requires { are_in_order (names_of (values_view inherited.now)) ≡ true }
    ensures { IfOk result (λ entries. map entry_view entries
        ≡ map (λ v. value_named (values_view inherited.now) v.0) (values_view declared.now)) }
{
    let mut entries = Seq::new(alloc);
    for declaration in declared {
        entries.push(inherited_entry(inherited, &declaration.name)?)?;
    }
    Ok(entries)
}
