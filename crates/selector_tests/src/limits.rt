//! Limits, from both sides.
use crate::reading::read;
use crate::spelling::spell;
use css_tokens::{TokenFault, components, tokenize};
use port_core::NoMemory;
use std::alloc::Global;
use std::test::Fail;

#[test]
fn a_and_b_are_clamped(rt: HostRuntime) -> Result<(), Fail> {
    for (text, list) in [
        (
            ":nth-child(999999999n+999999999)",
            ":nth-child(999999999n,999999999)",
        ),
        (
            ":nth-child(1000000000n+1000000000)",
            ":nth-child(1000000000n,1000000000)",
        ),
        (
            ":nth-child(1000000001n+1000000001)",
            ":nth-child(1000000000n,1000000000)",
        ),
        (
            ":nth-child(-1000000001n-1000000001)",
            ":nth-child(-1000000000n,-1000000000)",
        ),
        (":nth-child(n-1000000000)", ":nth-child(1n,-1000000000)"),
        (
            ":nth-child(n-99999999999999999999)",
            ":nth-child(1n,-1000000000)",
        ),
        (
            ":nth-child(99999999999999999999)",
            ":nth-child(0n,1000000000)",
        ),
        (":nth-child(n - 1000000001)", ":nth-child(1n,-1000000000)"),
    ] {
        match read(rt.alloc(), text)? {
            Some(found) => assert_eq!(rt; spell(rt.alloc(), &found)?.as_str(), list, "at {text}"),
            None => assert!(rt; false, "invalid: {text}"),
        }
    }
    Ok(())
}

/// `:is(` so many times, and a type.
fn nested(alloc: Global, count: usize) -> Result<String, NoMemory> {
    let mut text = String::new(alloc);
    for _ in 0..count {
        text.push_str(":is(")?;
    }
    text.push_str("a")?;
    Ok(text)
}

#[test]
fn functions_nest_up_to_a_limit(rt: HostRuntime) -> Result<(), Fail> {
    let deepest = nested(rt.alloc(), 64)?;
    let Some(list) = read(rt.alloc(), deepest.as_str())? else {
        panic!(rt; "64 functions are refused");
    };
    let spelled = spell(rt.alloc(), &list)?;
    assert!(rt; spelled.as_str().starts_with(deepest.as_str()));
    let deeper = nested(rt.alloc(), 65)?;
    let answer = components(rt.alloc(), &tokenize(rt.alloc(), deeper.as_str())?);
    assert!(rt; matches!(answer, Err(TokenFault::TooDeep)));
    Ok(())
}
