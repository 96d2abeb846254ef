//! Component values (CSS Syntax 3, sections 5.4.7 to 5.4.9).
use css_model::Token;
use port_core::Seq;

/// A component value: a preserved token, a simple block or a function.
#[derive(Debug, Drop)]
pub enum Component {
    /// A preserved token.
    One(Token),
    /// A simple block: the token that opens it, its contents, and the token that closes it, if one does.
    Block(Token, Seq<Component>, Option<Token>),
    /// A function: its name and `(`, its contents, and the token that closes it, if one does.
    Function(Token, Seq<Component>, Option<Token>),
}

/// A list of component values, in their order.
pub type Components = Seq<Component>;
