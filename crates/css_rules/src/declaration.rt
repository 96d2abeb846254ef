//! Declarations (CSS Syntax 3, section 5.4.6).
use css_tokens::Components;
use port_core::{Seq, Text};

/// A declaration.
#[derive(Debug, Drop)]
pub struct Declaration {
    /// Its name.
    pub name: Text,
    /// Its value, without `!important` and without white space at the ends.
    pub value: Components,
    /// Whether it was written with `!important`.
    pub important: bool,
}

/// A list of declarations, in their order.
pub type Declarations = Seq<Declaration>;
