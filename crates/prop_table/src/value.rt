//! Values, as they are declared (CSS Cascade 4, section 4.2).
ghost use Rattle.prop_table.specs.Views.{value_view};
ghost use Rattle.std.specs.Prelude.{◌≡◌, IfOk};

use crate::name_lists::copy_names;
use port_core::{NoMemory, Seq, Text};
use query_units::Length;
use std::alloc::Global;
use units64::Fixed6;
use value_model::{Color, Containment, Keyword, WideKeyword};

/// The value of a declaration.
#[derive(Debug, Drop)]
pub enum Value {
    /// A CSS-wide keyword.
    Wide(WideKeyword),
    /// A keyword.
    Keyword(Keyword),
    /// A length or a percentage, literal or calculated.
    Length(Length),
    /// A number, in millionths.
    Number(Fixed6),
    /// An integer.
    Integer(i32),
    /// A colour.
    Color(Color),
    /// Kinds of containment.
    Containment(Containment),
    /// Names of containers; `none` is no name.
    Names(Seq<Text>),
}

impl Value {
    /// Returns a copy. One that is no calculation and has no names takes no memory.
    pub fn copy(&self, alloc: Global) -> Result<Value, NoMemory>
        ensures { IfOk result (λ v. value_view v ≡ value_view self.now) }
    {
        match self {
            Value::Wide(wide) => Ok(Value::Wide(*wide)),
            Value::Keyword(keyword) => Ok(Value::Keyword(*keyword)),
            Value::Length(length) => Ok(Value::Length(length.copy(alloc)?)),
            Value::Number(number) => Ok(Value::Number(*number)),
            Value::Integer(integer) => Ok(Value::Integer(*integer)),
            Value::Color(color) => Ok(Value::Color(*color)),
            Value::Containment(containment) => Ok(Value::Containment(*containment)),
            Value::Names(names) => Ok(Value::Names(copy_names(alloc, names)?)),
        }
    }
}
