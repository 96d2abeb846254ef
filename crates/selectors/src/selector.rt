//! Selectors (Selectors 4, sections 3 and 4).
use port_core::{Seq, Text};
use selectors_model::{AnPlusB, AttributeMatcher, Combinator, Nth, PseudoClass};

/// A simple selector (Selectors 4, section 3.1).
#[derive(Debug, Drop)]
#[cycle(selector)]
pub enum Simple {
    /// A type selector: the name of an element.
    Type(Text),
    /// `*`.
    Universal,
    /// `#id`.
    Id(Text),
    /// `.name`.
    Class(Text),
    /// `[name]`.
    AttributePresent(Text),
    /// `[name=value]` and its like: the name, how values are compared, and the value.
    AttributeValue(Text, AttributeMatcher, Text),
    /// A pseudo-class without arguments.
    PseudoClass(PseudoClass),
    /// `:nth-child()` and its like: what is counted, and the positions.
    NthPseudoClass(Nth, AnPlusB),
    /// `:is()`.
    Is(SelectorList),
    /// `:where()`.
    Where(SelectorList),
    /// `:not()`.
    Not(SelectorList),
    /// A pseudo-element.
    PseudoElement,
}

/// A compound selector: its simple selectors, in the order written.
pub type Compound = Seq<Simple>;

/// A combinator, and the compound on its right.
#[derive(Debug, Drop)]
#[cycle(selector)]
pub struct Link {
    /// What stands on the left of the compound.
    pub combinator: Combinator,
    /// The compound.
    pub compound: Compound,
}

/// A complex selector: a compound, and then combinators and compounds, in the order written.
#[derive(Debug, Drop)]
#[cycle(selector)]
pub struct Selector {
    /// The first compound.
    pub first: Compound,
    /// What is after it.
    pub links: Seq<Link>,
}

/// A list of selectors, in the order written.
#[derive(Debug, Drop)]
#[cycle(selector)]
pub struct SelectorList {
    /// Its members.
    pub members: Seq<Selector>,
}
