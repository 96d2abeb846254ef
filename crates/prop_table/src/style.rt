//! The computed values of an element (CSS Cascade 4, section 4.4).
ghost use Rattle.prop_table.specs.Styles.{AreParts, borders_of, boxes_of, rest_of, style_view};
ghost use Rattle.std.specs.Prelude.{◌≡◌, ◌↔◌, ◌++◌, IsTrue, ◌<◌, IfOk, Some, length, slice_get};
ghost use Rattle.value_model.specs.Properties as properties;

use crate::final_value::Final;
use crate::prop_order::prop_place;
use port_core::{NoMemory, Seq};
use std::marker::Model;
use std::rc::Rc;
use value_model::Prop;

/// The computed values of all properties, in the order of the properties.
///
/// They are kept in three parts, each of which may be shared with other styles: sizes, margins and
/// paddings; borders; and the rest. Contracts see the list of all values.
#[derive(Debug, Drop)]
pub struct Style {
    boxes: Rc<Seq<Final>>,
    borders: Rc<Seq<Final>>,
    rest: Rc<Seq<Final>>,
}

impl Model for Style {
    ghost use Rattle.prop_table.specs.Styles.{AreParts};
    ghost use Rattle.prop_table.specs.declared.final_value.Final.{Final as final};
    ghost use Rattle.std.specs.Prelude.{List, ◌++◌};

    ghost Value = { List final };

    ghost use Rattle.query_units.specs.contracts.computed.Computed as computed;
    ghost use Rattle.std.specs.Coded.{codes};

    ghost coded = { Prim.hlevel (codes, computed.the_row.coded) };

    ghost view = { λ s. s.boxes.value ++ (s.borders.value ++ s.rest.value) };

    ghost invariant = { λ s. AreParts s.boxes.value s.borders.value s.rest.value };
}

impl Style {
    /// Makes a style of its three parts.
    pub fn of_parts(boxes: Rc<Seq<Final>>, borders: Rc<Seq<Final>>, rest: Rc<Seq<Final>>) -> Style
        requires { AreParts boxes.value borders.value rest.value }
        ensures { result ≡ boxes.value ++ (borders.value ++ rest.value) }
    {
        Style {
            boxes,
            borders,
            rest,
        }
    }

    /// Returns the value of `prop`.
    pub fn get(&self, prop: Prop) -> &Final
        ensures { slice_get self.now (properties.prop_place prop) ≡ Some result.now }
    {
        let place = prop_place(prop);
        if place < BORDERS {
            value_at(&self.boxes, place)
        } else if place < REST {
            value_at(&self.borders, place - BORDERS)
        } else {
            value_at(&self.rest, place - REST)
        }
    }

    /// Returns the sizes, margins and paddings.
    pub fn boxes(&self) -> &Rc<Seq<Final>>
        ensures { result.now.value ≡ boxes_of self.now }
    {
        &self.boxes
    }

    /// Returns the borders.
    pub fn borders(&self) -> &Rc<Seq<Final>>
        ensures { result.now.value ≡ borders_of self.now }
    {
        &self.borders
    }

    /// Returns the rest.
    pub fn rest(&self) -> &Rc<Seq<Final>>
        ensures { result.now.value ≡ rest_of self.now }
    {
        &self.rest
    }

    /// Returns whether both have the same values.
    #[tactic(auto, using(crate::proofs::StyleView::same_boxes, crate::proofs::StyleView::same_borders, crate::proofs::StyleView::same_rest, crate::proofs::StyleView::same_parts))]
    pub fn same(&self, other: &Style) -> bool
        ensures { IsTrue result ↔ (style_view self.now ≡ style_view other.now) }
    {
        if !are_same(self.boxes(), other.boxes()) {
            return false;
        }
        if !are_same(self.borders(), other.borders()) {
            return false;
        }
        are_same(self.rest(), other.rest())
    }

    /// Returns a style that shares the parts of this one. It allocates nothing.
    ///
    /// # Errors
    ///
    /// `NoMemory` where a part cannot be shared once more.
    pub fn share(&self) -> Result<Style, NoMemory>
        ensures { IfOk result (λ s. s ≡ self.now) }
    {
        Ok(Style {
            boxes: self.boxes.clone()?,
            borders: self.borders.clone()?,
            rest: self.rest.clone()?,
        })
    }
}

/// The place of the first border.
const BORDERS: usize = 15;

/// The place of the first property after the borders.
const REST: usize = 27;

fn value_at(part: &Seq<Final>, index: usize) -> &Final
    requires { index < length part.now }
    ensures { slice_get part.now index ≡ Some result.now }
{
    &part.as_slice()[index]
}

/// Whether two lists have the same values.
fn are_same(these: &Seq<Final>, those: &Seq<Final>) -> bool
    ensures { IsTrue result ↔ (style_view these.now ≡ style_view those.now) }
{
    if these.len() != those.len() {
        return false;
    }
    for i in 0..these.len() {
        if !these.as_slice()[i].same(&those.as_slice()[i]) {
            return false;
        }
    }
    true
}
