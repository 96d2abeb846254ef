//! What an element's style is made of.
use crate::winners::Winners;
use port_core::Seq;
use prop_table::{Bases, Style, Value};

/// What the values that win and are kept whole are after substitution, by the places of properties.
#[derive(Debug, Drop)]
pub(crate) struct Made {
    pub(crate) all: Seq<Option<Value>>,
    pub(crate) user_agent: Seq<Option<Value>>,
}

/// What an element's style is made of: the declarations that win, what their values are after
/// substitution, the style of its parent, and what lengths refer to, `em` being the font size of the
/// parent.
#[derive(Clone, Copy, Debug)]
pub(crate) struct Given<'a> {
    pub(crate) winners: &'a Winners,
    pub(crate) made: &'a Made,
    pub(crate) parent: Option<&'a Style>,
    pub(crate) bases: Bases,
}
