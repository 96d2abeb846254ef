//! Styles of elements.
use custom_props::Env;
use prop_table::{Bases, Style};
use std::rc::Rc;

/// The style of an element, its environment, and what lengths referred to.
///
/// The ledger's key `L` names the ledger that the style was logged in.
#[derive(Debug, Drop)]
pub struct Styled<L> {
    pub(crate) style: Style,
    /// Its custom properties, which elements below it share.
    pub(crate) env: Rc<Env>,
    pub(crate) bases: Bases,
    /// It stays `None`.
    pub(crate) key: Option<L>,
}
