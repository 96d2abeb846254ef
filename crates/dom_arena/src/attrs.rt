//! The attributes of an element (DOM section 4.9).
ghost use Rattle.std.specs.Prelude.{◌≡◌, [], IfOk, OnOk, OnErr, true, option_map, encode_utf8_all};
ghost use Rattle.std.specs.Str.{chars};
ghost use Rattle.page_model.specs.Attributes.{are_in_order, value_of, with_attribute, without_attribute};

use crate::spots::{put, spot_of, take};
use port_core::{NoMemory, Text};
use std::alloc::Global;
use std::marker::Model;

/// An attribute's name and value.
pub type Attribute = (Text, Text);

/// The attributes of an element, in the order of their names by code points, each name once.
///
/// Contracts see the list of names and values.
#[derive(Debug, Drop)]
pub struct Attrs {
    list: Vec<Attribute>,
}

impl Model for Attrs {
    ghost use Rattle.std.specs.Prelude.{◌≡◌, List, ℕ, true};
    ghost use Rattle.std.specs.Coded.{coded_list, coded_ℕ, coded×};
    ghost use Rattle.page_model.specs.Trees.{Attribute as attribute};
    ghost use Rattle.page_model.specs.Attributes.{are_in_order};

    ghost Value = { List attribute };

    ghost coded = { coded_list (coded× (coded_list coded_ℕ) (coded_list coded_ℕ)) };

    ghost view = { λ a. a.list.items };

    ghost invariant = { λ a. are_in_order a.list.items ≡ true };
}

impl Attrs {
    /// Returns no attributes.
    pub fn new(alloc: Global) -> Attrs
        ensures { result ≡ [] }
    {
        Attrs {
            list: Vec::new(alloc),
        }
    }

    /// Returns the names and values in order.
    pub fn as_slice(&self) -> &[Attribute]
        ensures value { result.now ≡ self.now }
        ensures order { are_in_order self.now ≡ true }
    {
        self.list.as_slice()
    }

    /// Returns the value of the attribute `name`.
    pub fn get(&self, name: &str) -> Option<&str>
        ensures { option_map (λ s. s.now) result
            ≡ option_map encode_utf8_all (value_of (chars name.now) self.now) }
    {
        value_in(self.as_slice(), name)
    }

    /// Gives the attribute `name` this value, in place of one that is there.
    pub fn set(&mut self, alloc: Global, name: &str, value: &str) -> Result<(), NoMemory>
        ensures set { OnOk result (self.new
            ≡ with_attribute (chars name.now) (chars value.now) self.old) }
        ensures kept { OnErr result (self.new ≡ self.old) }
    {
        let name_text = Text::new(alloc, name)?;
        let value_text = Text::new(alloc, value)?;
        let spot = spot_of(self.list.as_slice(), name);
        put(&mut self.list, spot, (name_text, value_text))
    }

    /// Takes the attribute `name` out, if it is there; takes no memory.
    pub fn drop(&mut self, name: &str)
        ensures { self.new ≡ without_attribute (chars name.now) self.old }
    {
        let spot = spot_of(self.list.as_slice(), name);
        take(&mut self.list, spot);
    }

    /// Returns a copy of the attributes.
    pub fn copy(&self, alloc: Global) -> Result<Attrs, NoMemory>
        ensures { IfOk result (λ copy. copy ≡ self.now) }
    {
        let list = copy_of(alloc, self.as_slice())?;
        Ok(Attrs { list })
    }
}

fn value_in<'a>(attributes: &'a [Attribute], name: &str) -> Option<&'a str>
    ensures { option_map (λ s. s.now) result
        ≡ option_map encode_utf8_all (value_of (chars name.now) attributes.now) }
{
    for (key, value) in attributes {
        if key.is(name) {
            return Some(value.as_str());
        }
    }
    None
}

fn copy_of(alloc: Global, attributes: &[Attribute]) -> Result<Vec<Attribute>, NoMemory>
    ensures { IfOk result (λ copy. copy.items ≡ attributes.now) }
{
    let mut copy = Vec::new(alloc);
    for (name, value) in attributes {
        let name = Text::new(alloc, name.as_str())?;
        let value = Text::new(alloc, value.as_str())?;
        copy.push((name, value))?;
    }
    Ok(copy)
}
