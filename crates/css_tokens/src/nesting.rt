//! Component values: tokens, nested by their brackets (CSS Syntax 3, sections 5.4.7 to 5.4.9).
ghost use Rattle.std.specs.Prelude.{◌≡◌, ◌<◌, ◌≤◌, List, [], ◌∷◌, ◌++◌, Some, true, false, option_map, length, IfOk, Err};
ghost use Rattle.std.specs.Option.{is_some};
ghost use Rattle.css_model.specs.Components as defined;
ghost use Rattle.css_model.specs.Components.{IsComponents, depths};
ghost use Rattle.css_model.specs.inner.Nesting as computed;
ghost use Rattle.css_model.specs.inner.Nesting.{innermost, nesting, followed};
ghost use Rattle.css_model.specs.declared.token.TheConstants.{MAX_NESTING};
ghost use Rattle.css_tokens.specs.Nested.{component_view, components_view};
ghost use Rattle.css_tokens.specs.inner.OpenBrackets.{heads_of, with_rest, IsWithin, Ends, Taken, Nests};

use crate::component::{Component, Components};
use crate::fault::TokenFault;
use css_model::{Bracket, MAX_NESTING, Token, TokenType, Tokens};
use port_core::{NoMemory, Seq};
use std::alloc::Global;
use std::mem;

/// A bracket that is open: what is before it in the bracket around it, and the token that opened it.
#[derive(Drop)]
struct OpenBracket {
    before: Components,
    head: Token,
}

/// Component values that are being made.
#[derive(Drop)]
struct Nesting {
    /// The open brackets, the innermost last.
    open_brackets: Seq<OpenBracket>,
    /// The contents of the innermost one so far.
    contents: Components,
}

/// The bracket that a token of this type opens, if it opens one.
fn opened_by(token_type: &TokenType) -> Option<Bracket>
    ensures { result ≡ defined.opened_by token_type.now }
{
    match token_type {
        TokenType::Function(_) => Some(Bracket::Round),
        TokenType::Opening(bracket) => Some(*bracket),
        _ => None,
    }
}

/// Whether a token of this type closes the bracket `around` it.
fn closes(around: Option<Bracket>, token_type: &TokenType) -> bool
    ensures { result ≡ defined.closes around token_type.now }
{
    match (around, token_type) {
        (Some(opened), TokenType::Closing(bracket)) => opened == *bracket,
        _ => false,
    }
}

/// The simple block or function of `head`, with its `contents` and the token that closes it.
fn bracketed(head: Token, contents: Components, close: Option<Token>) -> Component
    ensures { component_view result ≡ computed.bracketed head (components_view contents) close }
{
    if matches!(&head.token_type, TokenType::Function(_)) {
        Component::Function(head, contents, close)
    } else {
        Component::Block(head, contents, close)
    }
}

impl Nesting {
    /// The innermost open bracket, if one is open.
    fn innermost(&self) -> Option<Bracket>
        ensures { result ≡ innermost (heads_of self.now.open_brackets) }
    {
        match self.open_brackets.as_slice() {
            [.., open_bracket] => opened_by(&open_bracket.head.token_type),
            [] => None,
        }
    }

    /// Appends a component value to the innermost open bracket.
    fn add(&mut self, component: Component) -> Result<(), NoMemory>
        ensures open_brackets { self.new.open_brackets ≡ self.old.open_brackets }
        ensures contents { IfOk result (λ _. components_view self.new.contents
            ≡ followed (components_view self.old.contents) (defined.component (component_view component) defined.no_components)) }
    {
        self.contents.push(component)?;
        Ok(())
    }

    /// Ends the innermost open bracket, which `close` closes.
    fn end(&mut self, close: Option<Token>) -> Result<(), NoMemory>
        requires open { 0 < length self.old.open_brackets }
        ensures { IfOk result (λ _. Ends self.old close self.new) }
    {
        match self.open_brackets.pop() {
            None => Ok(()),
            Some(OpenBracket { before, head }) => {
                let contents = mem::replace(&mut self.contents, before);
                self.add(bracketed(head, contents, close))?;
                Ok(())
            }
        }
    }

    /// Takes a token that opens a bracket.
    fn take_opening(&mut self, alloc: Global, head: Token) -> Result<(), TokenFault>
        requires opens { is_some (defined.opened_by head.token_type) ≡ true }
        ensures { Taken result self.old head self.new }
    {
        if self.open_brackets.len() >= MAX_NESTING {
            return Err(TokenFault::TooDeep);
        }
        let before = mem::replace(&mut self.contents, Seq::new(alloc));
        self.open_brackets.push(OpenBracket { before, head })?;
        Ok(())
    }

    /// Takes a token that closes the innermost open bracket.
    fn take_closing(&mut self, close: Token) -> Result<(), TokenFault>
        requires opens { is_some (defined.opened_by close.token_type) ≡ false }
        requires closes { defined.closes (innermost (heads_of self.old.open_brackets)) close.token_type ≡ true }
        ensures { Taken result self.old close self.new }
    {
        self.end(Some(close))?;
        Ok(())
    }

    /// Takes a token that is preserved.
    fn take_alone(&mut self, token: Token) -> Result<(), TokenFault>
        requires opens { is_some (defined.opened_by token.token_type) ≡ false }
        requires closes { defined.closes (innermost (heads_of self.old.open_brackets)) token.token_type ≡ false }
        ensures { Taken result self.old token self.new }
    {
        self.add(Component::One(token))?;
        Ok(())
    }

    /// Takes a token.
    fn take(&mut self, alloc: Global, token: &Token) -> Result<(), TokenFault>
        ensures { Taken result self.old token.now self.new }
    {
        let copy = token.copy(alloc)?;
        if opened_by(&copy.token_type).is_some() {
            self.take_opening(alloc, copy)
        } else if closes(self.innermost(), &copy.token_type) {
            self.take_closing(copy)
        } else {
            self.take_alone(copy)
        }
    }

    /// Ends all open brackets, and returns the component values.
    fn finish(mut self) -> Result<Components, NoMemory>
        requires within { IsWithin self }
        ensures { IfOk result (λ cs. (components_view cs ≡ with_rest self [])
            × (depths (components_view cs) ≤ MAX_NESTING)) }
    {
        while !self.open_brackets.is_empty() {
            self.end(None)?;
        }
        Ok(self.contents)
    }
}

fn nested(alloc: Global, tokens: &[Token]) -> Result<Components, TokenFault>
    ensures { Nests result tokens.now }
{
    let mut nesting = Nesting {
        open_brackets: Seq::new(alloc),
        contents: Seq::new(alloc),
    };
    for token in tokens {
        nesting.take(alloc, token)?;
    }
    Ok(nesting.finish()?)
}

/// The component values of `tokens` (CSS Syntax 3, sections 5.4.7 to 5.4.9).
///
/// A bracket is closed by its match, or ends with the tokens; a closing bracket that is not the
/// match of the innermost open one is preserved.
/// Returns `TooDeep` if simple blocks and functions nest deeper than `MAX_NESTING`, unless memory
/// runs out before.
/// Time grows with the number and the length of the tokens; each is copied once.
pub fn components(alloc: Global, tokens: &Tokens) -> Result<Components, TokenFault>
    ensures nested { IfOk result (λ cs. IsComponents tokens.now (components_view cs)
        × (depths (components_view cs) ≤ MAX_NESTING)) }
    ensures deep { result ≡ Err TokenFault.TooDeep →
        (cs : defined.Components) × IsComponents tokens.now cs × (MAX_NESTING < depths cs) }
{
    nested(alloc, tokens.as_slice())
}
