//! For each custom property, the declaration that wins so far (CSS Cascade 4, section 6.1).
ghost use Rattle.cascade_core.specs.inner.Customs.{custom_values, less_count, names, offered, stands_at};
ghost use Rattle.cascade_core.specs.inner.Strength as strength;
ghost use Rattle.page_model.specs.Attributes.{is_less_text, is_same_text};
ghost use Rattle.custom_model.specs.NamedValues.{are_in_order};
ghost use Rattle.custom_props.specs.EnvView.{env_view};
ghost use Rattle.custom_props.specs.Views.{values_view};
ghost use Rattle.std.specs.Prelude.{◌≡◌, ◌≤◌, ◌<◌, ◌++◌, [], ◌∷◌, IfOk, OnOk, drop, length, not, suc, take, true};
ghost use Rattle.std.specs.Str.{chars};

use crate::applied::{Applied, is_stronger};
use crate::kept::KeptValue;
use custom_props::{Declared, Env, NamedValue, compare};
use port_core::{NoMemory, Seq, Text};
use std::alloc::Global;
use std::cmp::Ordering;
use std::rc::Rc;

/// A custom property with the declaration that wins so far.
#[derive(Debug, Drop)]
pub(crate) struct CustomWinner {
    /// The name.
    pub(crate) name: Rc<Text>,
    /// The declaration.
    pub(crate) applied: Applied,
}

/// The custom properties that are declared, in order of name.
#[derive(Debug, Drop)]
pub(crate) struct Customs {
    pub(crate) entries: Vec<CustomWinner>,
    ghost order: { are_in_order (names entries.items) ≡ true },
}

impl Customs {
    /// No custom property.
    pub(crate) fn new(alloc: Global) -> Customs
        ensures { result.entries.items ≡ [] }
    {
        Customs {
            entries: Vec::new(alloc),
        }
    }

    /// Takes a declaration that appears later than all before it.
    pub(crate) fn offer(&mut self, later: CustomWinner) -> Result<(), NoMemory>
        ensures { OnOk result (self.new.entries.items ≡ offered later self.old.entries.items) }
    {
        let place = place_for(self.entries.as_slice(), later.name.as_str());
        if stands_at(self.entries.as_slice(), place, later.name.as_str()) {
            if yields(&self.entries[place].applied, &later.applied) {
                self.entries[place] = later;
            }
            return Ok(());
        }
        self.entries.insert(place, later)?;
        Ok(())
    }

    /// The names with the component values that win.
    pub(crate) fn declared(&self, alloc: Global) -> Result<Declared, NoMemory>
        ensures { IfOk result (λ d. env_view d ≡ custom_values self.now.entries.items) }
    {
        let mut values = Seq::new(alloc);
        for winner in self.entries.as_slice() {
            push_declared(alloc, winner, &mut values)?;
        }
        Ok(Env::from_values(values))
    }
}

/// Appends the name and the component values of a winner.
fn push_declared(
    alloc: Global,
    winner: &CustomWinner,
    values: &mut Seq<NamedValue>,
) -> Result<(), NoMemory>
    ensures { OnOk result (values_view values.new
        ≡ values_view values.old ++ custom_values (winner.now ∷ [])) }
{
    match &*winner.applied.value {
        KeptValue::Whole(_, components) => values.push(NamedValue {
            name: winner.name.copy(alloc)?,
            value: components.clone()?,
        }),
        KeptValue::Read(_) => Ok(()),
    }
}

/// Whether the one that wins so far yields to one that appears later.
fn yields(best: &Applied, later: &Applied) -> bool
    ensures { result ≡ not (strength.is_stronger best.now later.now) }
{
    !is_stronger(best, later)
}

/// How many names at the front are less than `name`.
fn place_for(entries: &[CustomWinner], name: &str) -> usize
    requires { are_in_order (names entries.now) ≡ true }
    ensures place { result ≡ less_count (chars name.now) (names entries.now) }
    ensures within { result ≤ length entries.now }
{
    let mut start = 0;
    let mut rest = entries;
    while !rest.is_empty() {
        let middle = rest.len() / 2;
        if is_less(rest[middle].name.as_str(), name) {
            start += middle + 1;
            rest = back_half(rest, middle);
        } else {
            rest = front_half(rest, middle);
        }
    }
    start
}

/// Whether `a` is less than `b`, by code points.
fn is_less(a: &str, b: &str) -> bool
    ensures { result ≡ is_less_text (chars a.now) (chars b.now) }
{
    match compare(a, b) {
        Ordering::Less => true,
        Ordering::Equal => false,
        Ordering::Greater => false,
    }
}

/// The entries before the one in this place.
fn front_half(entries: &[CustomWinner], place: usize) -> &[CustomWinner]
    requires { place < length entries.now }
    ensures { result.now ≡ take place entries.now }
{
    &entries[..place]
}

/// The entries after the one in this place.
fn back_half(entries: &[CustomWinner], place: usize) -> &[CustomWinner]
    requires { place < length entries.now }
    ensures { result.now ≡ drop (suc place) entries.now }
{
    &entries[place + 1..]
}

/// Whether `name` stands in this place.
fn stands_at(entries: &[CustomWinner], place: usize, name: &str) -> bool
    ensures { result ≡ stands_at place (chars name.now) entries.now }
{
    match entries.get(place) {
        Some(entry) => is_same(name, entry.name.as_str()),
        None => false,
    }
}

/// Whether both are the same name.
fn is_same(a: &str, b: &str) -> bool
    ensures { result ≡ is_same_text (chars a.now) (chars b.now) }
{
    match compare(a, b) {
        Ordering::Equal => true,
        Ordering::Less => false,
        Ordering::Greater => false,
    }
}
