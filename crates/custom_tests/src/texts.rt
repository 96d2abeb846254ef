//! Component values of texts, and their spellings.
use css_tokens::{Component, Components, Token, TokenType, components, tokenize};
use custom_props::Env;
use port_core::{NoMemory, Text};
use std::alloc::Global;
use std::rc::Rc;
use std::test::Fail;

/// The component values of a text.
pub fn components_of(alloc: Global, text: &str) -> Result<Components, Fail> {
    let tokens = tokenize(alloc, text)?;
    Ok(components(alloc, &tokens)?)
}

/// Appends a name with the value that a text is; returns whether the name comes after all others.
pub fn append(alloc: Global, env: &mut Env, name: &str, value: &str) -> Result<bool, Fail> {
    let value = components_of(alloc, value)?;
    match Rc::new(alloc, value) {
        Ok(value) => Ok(env.append(Text::new(alloc, name)?, value)?),
        Err(_) => Err(NoMemory)?,
    }
}

/// The names and values of `--a:x;--b:y`, in order of name.
pub fn env_of(alloc: Global, text: &str) -> Result<Env, Fail> {
    let mut env = Env::new(alloc);
    for entry in text.split(';') {
        if let Some((name, value)) = entry.split_once(':') {
            append(alloc, &mut env, name, value)?;
        }
    }
    Ok(env)
}

/// Writes the spellings of component values.
#[cycle(spelling)]
pub fn spell(components: &[Component], text: &mut String) -> Result<(), NoMemory> {
    for c in components {
        spell_one(c, text)?;
    }
    Ok(())
}

#[cycle(spelling)]
fn spell_one(c: &Component, text: &mut String) -> Result<(), NoMemory> {
    match c {
        Component::One(token) => text.push_str(token.spelling.as_str()),
        Component::Block(head, contents, close) | Component::Function(head, contents, close) => {
            text.push_str(head.spelling.as_str())?;
            spell(contents.as_slice(), text)?;
            spell_close(close, text)
        }
    }
}

fn spell_close(close: &Option<Token>, text: &mut String) -> Result<(), NoMemory> {
    match close {
        Some(token) => text.push_str(token.spelling.as_str()),
        None => Ok(()),
    }
}

/// Writes the spellings of tokens other than white space, each after a space but for the first.
#[cycle(printing)]
pub fn print(components: &[Component], text: &mut String) -> Result<(), NoMemory> {
    for c in components {
        print_one(c, text)?;
    }
    Ok(())
}

#[cycle(printing)]
fn print_one(c: &Component, text: &mut String) -> Result<(), NoMemory> {
    match c {
        Component::One(token) => print_token(token, text),
        Component::Block(head, contents, close) | Component::Function(head, contents, close) => {
            print_token(head, text)?;
            print(contents.as_slice(), text)?;
            print_close(close, text)
        }
    }
}

fn print_close(close: &Option<Token>, text: &mut String) -> Result<(), NoMemory> {
    match close {
        Some(token) => print_token(token, text),
        None => Ok(()),
    }
}

fn print_token(token: &Token, text: &mut String) -> Result<(), NoMemory> {
    if matches!(&token.token_type, TokenType::Whitespace) {
        return Ok(());
    }
    if !text.is_empty() {
        text.push_str(" ")?;
    }
    text.push_str(token.spelling.as_str())
}

/// `count` times a text.
pub fn times(alloc: Global, text: &str, count: usize) -> Result<String, Fail> {
    let mut all = String::new(alloc);
    for _ in 0..count {
        all.push_str(text)?;
    }
    Ok(all)
}
