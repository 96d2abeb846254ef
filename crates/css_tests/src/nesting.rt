//! Rows of texts with their component values (CSS Syntax 3, sections 5.4.7 to 5.4.9).
use css_tokens::{Component, Token, TokenFault, components, tokenize};
use port_core::NoMemory;
use std::alloc::Global;
use std::process::Abort;
use std::test::Fail;

/// Spells components: a block between `<` and `>`, a function between `/` and `/`, and `_` for a
/// closing token that is missing.
fn spell(components: &[Component], spelled: &mut String) -> Result<(), NoMemory> {
    for component in components {
        match component {
            Component::One(token) => spelled.push_str(token.spelling.as_str())?,
            Component::Block(head, contents, close) => {
                spelled.push('<')?;
                spelled.push_str(head.spelling.as_str())?;
                spell(contents.as_slice(), spelled)?;
                spell_close(close, spelled)?;
                spelled.push('>')?;
            }
            Component::Function(head, contents, close) => {
                spelled.push('/')?;
                spelled.push_str(head.spelling.as_str())?;
                spell(contents.as_slice(), spelled)?;
                spell_close(close, spelled)?;
                spelled.push('/')?;
            }
        }
    }
    Ok(())
}

fn spell_close(close: &Option<Token>, spelled: &mut String) -> Result<(), NoMemory> {
    match close {
        Some(token) => spelled.push_str(token.spelling.as_str()),
        None => spelled.push('_'),
    }
}

/// Texts with their component values.
const NESTED: &str = r#"a,b => a,b
) => )
a]b => a]b
(] => <(]_>
(]) => <(])>
([)] => <(<[)]>_>
f( => /f(_/
f(] => /f(]_/
f() => /f()/
() => <()>
[({})] => <[<(<{}>)>]>
f(a,(b)c => /f(a,<(b)>c_/
f(g(]/**/)h => /f(/g(])/h_/
url(a)( => url(a)<(_>
a (b)c[d]}e => a <(b)>c<[d]>}e"#;

/// Checks a row: a text, ` => ` and its component values.
fn check_row(alloc: Global, rt: &impl Abort, row: &str) -> Result<(), Fail> {
    let Some((text, want)) = row.split_once(" => ") else {
        panic!(rt; "no components in {row}");
    };
    let components = components(alloc, &tokenize(alloc, text)?)?;
    let mut spelled = String::new(alloc);
    spell(components.as_slice(), &mut spelled)?;
    assert_eq!(rt; spelled.as_str(), want, "at {row}");
    Ok(())
}

#[test]
fn brackets_are_nested(rt: HostRuntime) -> Result<(), Fail> {
    for row in NESTED.lines() {
        check_row(rt.alloc(), &rt, row)?;
    }
    let none = components(rt.alloc(), &tokenize(rt.alloc(), "")?)?;
    assert!(rt; none.is_empty());
    Ok(())
}

/// A text so many times.
fn repeated(alloc: Global, text: &str, count: usize) -> Result<String, NoMemory> {
    let mut all = String::new(alloc);
    for _ in 0..count {
        all.push_str(text)?;
    }
    Ok(all)
}

/// Whether the brackets of a text nest too deep.
fn is_too_deep(alloc: Global, text: &str) -> Result<bool, NoMemory> {
    match components(alloc, &tokenize(alloc, text)?) {
        Ok(_) => Ok(false),
        Err(TokenFault::TooDeep) => Ok(true),
        Err(TokenFault::NoMemory) => Err(NoMemory),
    }
}

#[test]
fn brackets_nest_up_to_a_limit(rt: HostRuntime) -> Result<(), Fail> {
    for (opening, behind, want) in [
        ("[", "", false),
        ("[", "]]a[", false),
        ("[", ")", false),
        ("f(", "a", false),
        ("[", "(", true),
        ("f(", "f(", true),
        ("{", "}{{", true),
    ] {
        let mut text = repeated(rt.alloc(), opening, 64)?;
        text.push_str(behind)?;
        let refused = is_too_deep(rt.alloc(), text.as_str())?;
        assert_eq!(rt; refused, want, "at {text}");
    }
    Ok(())
}
