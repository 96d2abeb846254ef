//! The name of a custom property with a value (CSS Custom Properties 1, section 2).
use css_tokens::Components;
use port_core::Text;
use std::rc::Rc;

/// The name of a custom property with a value, which may be shared.
#[derive(Debug, Drop)]
pub struct NamedValue {
    /// The name.
    pub name: Text,
    /// The value.
    pub value: Rc<Components>,
}
