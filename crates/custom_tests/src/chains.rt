//! Chains of names, each of which refers to the one before.
use crate::environments::value_text;
use crate::texts::{append, times};
use custom_props::{Declared, Env, resolve_env};
use std::alloc::Global;
use std::test::Fail;

/// The name of a number: `--a` and four digits, so that names are in the order of the numbers.
fn name_of(alloc: Global, number: usize) -> Result<String, Fail> {
    Ok(format!(in alloc; "--a{number:04}")?)
}

/// `--a0000:x`, and then so many names, each with `front`, the one before in a `var()`, and `back`.
fn chain(alloc: Global, count: usize, front: &str, back: &str) -> Result<Declared, Fail> {
    let mut declared = Env::new(alloc);
    let mut last = name_of(alloc, 0)?;
    append(alloc, &mut declared, last.as_str(), "x")?;
    for number in 1..=count {
        let value = format!(in alloc; "{front}var({last}){back}")?;
        last = name_of(alloc, number)?;
        append(alloc, &mut declared, last.as_str(), value.as_str())?;
    }
    Ok(declared)
}

/// `--a0000:x`, and then so many names, each with the one before twice.
fn doubling_chain(alloc: Global, count: usize) -> Result<Declared, Fail> {
    let mut declared = Env::new(alloc);
    let mut last = name_of(alloc, 0)?;
    append(alloc, &mut declared, last.as_str(), "x")?;
    for number in 1..=count {
        let value = format!(in alloc; "var({last}) var({last})")?;
        last = name_of(alloc, number)?;
        append(alloc, &mut declared, last.as_str(), value.as_str())?;
    }
    Ok(declared)
}

/// How many names the environment has of an element without a parent.
fn count_of(alloc: Global, declared: &Declared) -> Result<usize, Fail> {
    Ok(resolve_env(alloc, declared, &Env::new(alloc))?.len())
}

#[test]
fn as_many_tokens_as_may_be(rt: HostRuntime) -> Result<(), Fail> {
    let alloc = rt.alloc();
    let mut declared = Env::new(alloc);
    append(
        alloc,
        &mut declared,
        "--a",
        times(alloc, "x ", 2048)?.as_str(),
    )?;
    append(alloc, &mut declared, "--b", "var(--a)")?;
    assert_eq!(rt; count_of(alloc, &declared)?, 2);
    append(alloc, &mut declared, "--c", "var(--a)y")?;
    assert_eq!(rt; count_of(alloc, &declared)?, 2);
    Ok(())
}

/// The value in place k has 2^(k+1) - 1 tokens.
#[test]
fn doubled_values(rt: HostRuntime) -> Result<(), Fail> {
    let alloc = rt.alloc();
    assert_eq!(rt; count_of(alloc, &doubling_chain(alloc, 11)?)?, 12);
    assert_eq!(rt; count_of(alloc, &doubling_chain(alloc, 12)?)?, 12);
    assert_eq!(rt; count_of(alloc, &doubling_chain(alloc, 40)?)?, 12);
    Ok(())
}

#[test]
fn brackets_in_brackets(rt: HostRuntime) -> Result<(), Fail> {
    let alloc = rt.alloc();
    assert_eq!(rt; count_of(alloc, &chain(alloc, 64, "(", ")")?)?, 65);
    assert_eq!(rt; count_of(alloc, &chain(alloc, 65, "(", ")")?)?, 65);
    Ok(())
}

#[test]
fn five_thousand_names(rt: HostRuntime) -> Result<(), Fail> {
    let alloc = rt.alloc();
    let declared = chain(alloc, 5000, "", "")?;
    assert_eq!(rt; declared.len(), 5001);
    let env = resolve_env(alloc, &declared, &Env::new(alloc))?;
    assert_eq!(rt; env.len(), 5001);
    for i in 0..env.len() {
        assert_eq!(rt; value_text(alloc, &env, i)?.as_str(), "x");
    }
    Ok(())
}
