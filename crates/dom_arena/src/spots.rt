//! Where the attribute with a name stands in the order of names (DOM section 4.9).
ghost use Rattle.std.specs.Prelude.{◌≡◌, ◌<◌, if◌then◌else◌, nat_lt, length, true, OnOk, OnErr};
ghost use Rattle.page_model.specs.Attributes.{are_in_order};
ghost use Rattle.dom_arena.specs.declared.spots.Spot.TheVariants.{Before};
ghost use Rattle.std.specs.declared.cmp.Ordering.TheVariants.{Less, Greater};
ghost use Rattle.std.specs.Str.{chars};
ghost use Rattle.dom_arena.specs.Spots as spots;
ghost use Rattle.dom_arena.specs.Spots.{IsWithin, attributes_with, attributes_without, count_with, length_at, order_of};

use crate::attrs::Attribute;
use crate::counts::code_points;
use port_core::NoMemory;
use std::cmp::Ordering;

/// Where an attribute stands, or would stand.
#[derive(Clone, Copy, Debug, PartialEq, Eq)]
pub enum Spot {
    /// It stands here.
    At(usize),
    /// It would stand before the attribute that is here.
    Before(usize),
}

/// Returns how `c` stands to `d`, which is another code point.
fn order_of_two(c: char, d: char) -> Ordering
    ensures { result ≡ (if nat_lt c d then Less else Greater) }
{
    if c < d {
        Ordering::Less
    } else {
        Ordering::Greater
    }
}

/// Returns how `a` stands to `b` in the order by code points.
fn compare(a: &str, b: &str) -> Ordering
    ensures { result ≡ order_of (chars a.now) (chars b.now) }
{
    let mut left = a.chars();
    let mut right = b.chars();
    while let Some(c) = left.next() {
        let Some(d) = right.next() else {
            return Ordering::Greater;
        };
        if c != d {
            return order_of_two(c, d);
        }
    }
    if right.next().is_some() {
        Ordering::Less
    } else {
        Ordering::Equal
    }
}

/// Whether the last attribute stands before `name`, so that all do.
fn are_before(attributes: &[Attribute], name: &str) -> bool
    requires { are_in_order attributes.now ≡ true }
    ensures { result ≡ true
        → spots.spot_of (chars name.now) attributes.now ≡ Before (length attributes.now) }
{
    let count = attributes.len();
    if count == 0 {
        return true;
    }
    match compare(name, attributes[count - 1].0.as_str()) {
        Ordering::Greater => true,
        Ordering::Less | Ordering::Equal => false,
    }
}

/// Returns where the attribute `name` stands; behind all is found at once.
pub fn spot_of(attributes: &[Attribute], name: &str) -> Spot
    requires order { are_in_order attributes.now ≡ true }
    ensures spot { result ≡ spots.spot_of (chars name.now) attributes.now }
    ensures within { IsWithin result (length attributes.now) }
{
    if are_before(attributes, name) {
        return Spot::Before(attributes.len());
    }
    for i in 0..attributes.len() {
        match compare(name, attributes[i].0.as_str()) {
            Ordering::Equal => return Spot::At(i),
            Ordering::Less => return Spot::Before(i),
            Ordering::Greater => {}
        }
    }
    Spot::Before(attributes.len())
}

/// Returns how many code points the value at the spot has.
pub fn length_at(spot: Spot, attributes: &[Attribute]) -> usize
    ensures { result ≡ length_at spot attributes.now }
{
    match spot {
        Spot::At(i) => match attributes.get(i) {
            Some((_, value)) => code_points(value.as_str()),
            None => 0,
        },
        Spot::Before(_) => 0,
    }
}

/// Returns how many attributes there are with the one at the spot.
pub fn count_with(spot: Spot, attributes: &[Attribute]) -> usize
    ensures { result ≡ count_with spot (length attributes.now) }
{
    match spot {
        Spot::At(_) => attributes.len(),
        Spot::Before(_) => attributes.len() + 1,
    }
}

/// Puts `attribute` at the spot.
pub fn put(
    attributes: &mut Vec<Attribute>,
    spot: Spot,
    attribute: Attribute,
) -> Result<(), NoMemory>
    requires { IsWithin spot (length attributes.old.items) }
    ensures put { OnOk result (attributes.new.items
        ≡ attributes_with spot attribute attributes.old.items) }
    ensures kept { OnErr result (attributes.new.items ≡ attributes.old.items) }
{
    match spot {
        Spot::At(i) => {
            attributes[i] = attribute;
            Ok(())
        }
        Spot::Before(i) => {
            attributes.insert(i, attribute)?;
            Ok(())
        }
    }
}

/// Takes out what is at the spot.
pub fn take(attributes: &mut Vec<Attribute>, spot: Spot)
    requires { IsWithin spot (length attributes.old.items) }
    ensures { attributes.new.items ≡ attributes_without spot attributes.old.items }
{
    match spot {
        Spot::At(i) => {
            let _attribute = attributes.remove(i);
        }
        Spot::Before(_) => {}
    }
}
