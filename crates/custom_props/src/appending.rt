//! Names with values, made one after another.
ghost use Rattle.css_tokens.specs.Nested.{components_view};
ghost use Rattle.custom_props.specs.EnvView.{env_view};
ghost use Rattle.custom_props.specs.Order.{are_before, with_last};
ghost use Rattle.custom_props.specs.Views.{values_view};
ghost use Rattle.custom_model.specs.NamedValues.{are_in_order, names_of};
ghost use Rattle.page_model.specs.Attributes.{is_less_text};
ghost use Rattle.std.specs.Prelude.{◌≡◌, IfOk, OnErr, true};
ghost use Rattle.std.specs.Str.{chars};

use crate::env::Env;
use crate::named_value::NamedValue;
use crate::names::compare;
use css_tokens::Components;
use port_core::{NoMemory, Seq, Text};
use std::cmp::Ordering;
use std::rc::Rc;

impl Env {
    /// Returns these names with their values, which stand in order of name.
    pub fn from_values(values: Seq<NamedValue>) -> Env
        requires { are_in_order (names_of (values_view values)) ≡ true }
        ensures { env_view result ≡ values_view values }
    {
        Env { values }
    }

    /// Appends `name` with `value` and returns `true`, if each name so far is less; and else returns
    /// `false`.
    pub fn append(&mut self, name: Text, value: Rc<Components>) -> Result<bool, NoMemory>
        ensures appended { IfOk result (λ appended. appended ≡ are_before name (env_view self.old)) }
        ensures values { IfOk result (λ appended. env_view self.new
            ≡ with_last appended name (components_view value.value) (env_view self.old)) }
        ensures kept { OnErr result (env_view self.new ≡ env_view self.old) }
    {
        if !are_before(self.values.as_slice(), name.as_str()) {
            return Ok(false);
        }
        self.values.push(NamedValue { name, value })?;
        Ok(true)
    }
}

/// Whether each name is less than `name`.
fn are_before(values: &[NamedValue], name: &str) -> bool
    requires { are_in_order (names_of (values_view values.now)) ≡ true }
    ensures { result ≡ are_before (chars name.now) (values_view values.now) }
{
    match values {
        [.., last] => is_less(last.name.as_str(), name),
        [] => true,
    }
}

/// Whether `a` is less than `b`, by code points.
fn is_less(a: &str, b: &str) -> bool
    ensures { result ≡ is_less_text (chars a.now) (chars b.now) }
{
    match compare(a, b) {
        Ordering::Less => true,
        Ordering::Equal => false,
        Ordering::Greater => false,
    }
}
