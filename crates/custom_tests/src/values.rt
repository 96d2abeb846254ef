//! Rows of entries, of a value, and of what the value is after substitution.
use crate::texts::{append, components_of, env_of, spell, times};
use custom_props::{Env, Substituted, substitute};
use std::alloc::Global;
use std::test::Fail;

/// What a value is after substitution, as it is spelled; `invalid` if it is that.
fn substituted(alloc: Global, env: &Env, value: &str) -> Result<String, Fail> {
    let value = components_of(alloc, value)?;
    let mut text = String::new(alloc);
    match substitute(alloc, &value, env)? {
        Substituted::Value(new) => spell(new.as_slice(), &mut text)?,
        Substituted::Invalid => text.push_str("invalid")?,
    }
    Ok(text)
}

/// Entries, a value, and the value after substitution.
const ROWS: &str = r#"--a:x|var(--a)|x
--a:x|VAR( --a )|x
--a:x y(z)|b var(--a),c|b x y(z),c
--a:x;--b:y|var(--b) var(--a)|y x
--a:x|[f(var(--a))]|[f(x)]
--a:var(--b);--b:x|var(--a)|var(--b)
--a:x|var(--a,y)|x
--a:x|var(--a,var(--z))|x
--a:x|var(--z, y )| y 
--a:x|var(--z,f(y var(--a)))|f(y x)
--a:x|var(--z,var(--w,y))|y
--a:x|var(--z)|invalid
--a:x|b f(var(--z)) c|invalid
--a:x|var(--z,var(--w))|invalid
--a:x|var(--A,y)|y
--a:|var(--a)|
--a:(x|var(--a) y|(x y
--a:x| --a f(a) | --a f(a) "#;

#[test]
fn rows(rt: HostRuntime) -> Result<(), Fail> {
    let alloc = rt.alloc();
    for row in ROWS.lines() {
        if let Some((entries, rest)) = row.split_once('|') {
            if let Some((value, expected)) = rest.split_once('|') {
                let env = env_of(alloc, entries)?;
                let text = substituted(alloc, &env, value)?;
                assert_eq!(rt; text.as_str(), expected);
            }
        }
    }
    Ok(())
}

/// Whether a value is valid after substitution where `--a` is so many `x` and spaces.
fn is_valid(alloc: Global, count: usize, value: &str) -> Result<bool, Fail> {
    let mut env = Env::new(alloc);
    append(alloc, &mut env, "--a", times(alloc, "x ", count)?.as_str())?;
    let text = substituted(alloc, &env, value)?;
    Ok(text.as_str() != "invalid")
}

#[test]
fn as_many_tokens_as_may_be(rt: HostRuntime) -> Result<(), Fail> {
    let alloc = rt.alloc();
    assert!(rt; is_valid(alloc, 2048, "var(--a)")?);
    assert!(rt; !is_valid(alloc, 2048, "var(--a)y")?);
    assert!(rt; is_valid(alloc, 2047, "(var(--a))")?);
    assert!(rt; !is_valid(alloc, 2047, "f(var(--a) )")?);
    assert!(rt; is_valid(alloc, 2048, "var(--z,)")?);
    Ok(())
}

#[test]
fn no_limit_without_var(rt: HostRuntime) -> Result<(), Fail> {
    let alloc = rt.alloc();
    let long = times(alloc, "x ", 3000)?;
    let text = substituted(alloc, &Env::new(alloc), long.as_str())?;
    assert_eq!(rt; text.as_str(), long.as_str());
    Ok(())
}

#[test]
fn as_deep_as_may_be(rt: HostRuntime) -> Result<(), Fail> {
    let alloc = rt.alloc();
    for (depth, valid) in [(63, true), (64, false)] {
        let mut env = Env::new(alloc);
        append(alloc, &mut env, "--a", times(alloc, "(", depth)?.as_str())?;
        let text = substituted(alloc, &env, "[var(--a)]")?;
        assert_eq!(rt; text.as_str() != "invalid", valid);
    }
    Ok(())
}
