//! Values, as they are computed (CSS Cascade 4, section 4.4).
ghost use Rattle.prop_table.specs.Views.{final_view};
ghost use Rattle.std.specs.Prelude.{◌≡◌, ◌↔◌, IfOk, IsTrue};

use crate::name_lists::{copy_names, same_names};
use port_core::{NoMemory, Seq, Text};
use query_units::Computed;
use std::alloc::Global;
use units64::Fixed6;
use value_model::{Color, Containment, Keyword};

/// A computed value.
#[derive(Debug, Drop)]
pub enum Final {
    /// A keyword.
    Keyword(Keyword),
    /// A length in units, or a calculation with percentages.
    Length(Computed),
    /// A number, in millionths.
    Number(Fixed6),
    /// A number from 0 to 1, in millionths.
    Alpha(Fixed6),
    /// An integer.
    Integer(i32),
    /// A colour.
    Color(Color),
    /// Kinds of containment.
    Containment(Containment),
    /// Names of containers; `none` is no name.
    Names(Seq<Text>),
}

impl Final {
    /// Returns a copy. One that is no calculation and has no names takes no memory.
    pub fn copy(&self, alloc: Global) -> Result<Final, NoMemory>
        ensures { IfOk result (λ f. final_view f ≡ final_view self.now) }
    {
        match self {
            Final::Keyword(keyword) => Ok(Final::Keyword(*keyword)),
            Final::Length(length) => Ok(Final::Length(length.copy(alloc)?)),
            Final::Number(number) => Ok(Final::Number(*number)),
            Final::Alpha(number) => Ok(Final::Alpha(*number)),
            Final::Integer(integer) => Ok(Final::Integer(*integer)),
            Final::Color(color) => Ok(Final::Color(*color)),
            Final::Containment(containment) => Ok(Final::Containment(*containment)),
            Final::Names(names) => Ok(Final::Names(copy_names(alloc, names)?)),
        }
    }

    /// Returns whether both are the same value.
    pub fn same(&self, other: &Final) -> bool
        ensures { IsTrue result ↔ (final_view self.now ≡ final_view other.now) }
    {
        match (self, other) {
            (Final::Keyword(a), Final::Keyword(b)) => a == b,
            (Final::Length(a), Final::Length(b)) => a.same(b),
            (Final::Number(a), Final::Number(b)) => a == b,
            (Final::Alpha(a), Final::Alpha(b)) => a == b,
            (Final::Integer(a), Final::Integer(b)) => a == b,
            (Final::Color(a), Final::Color(b)) => a == b,
            (Final::Containment(a), Final::Containment(b)) => a == b,
            (Final::Names(a), Final::Names(b)) => same_names(a, b),
            _ => false,
        }
    }
}
