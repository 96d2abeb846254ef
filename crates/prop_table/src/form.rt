//! The forms of values that grammars of properties name (CSS Values 4, sections 2, 4 and 5).
use value_model::Keyword;

/// What a grammar may name. Without `Any` a negative number is not allowed.
#[derive(Clone, Copy, Debug)]
pub(crate) enum Form {
    /// One of these keywords.
    OneOf(&'static [Keyword]),
    /// A length.
    Length,
    /// A length or a percentage.
    LengthOrPercentage,
    /// The same, or a negative one.
    AnyLengthOrPercentage,
    /// A number.
    Number,
    /// The same, or a negative one.
    AnyNumber,
    /// An integer from the first to the second.
    IntegerBetween(u16, u16),
    /// An integer.
    AnyInteger,
    /// A colour.
    Color,
    /// Kinds of containment.
    Containment,
    /// Names of containers.
    ContainerNames,
}
