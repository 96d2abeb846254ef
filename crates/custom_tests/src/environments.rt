//! Rows of what an element declares, of the environment of its parent, and of its own.
use crate::texts::{env_of, print};
use custom_props::{Env, resolve_env};
use std::alloc::Global;
use std::test::Fail;

/// The names and values of an environment, as `--a:x;--b:y`, each value as a reply prints it.
fn text_of(alloc: Global, env: &Env) -> Result<String, Fail> {
    let mut text = String::new(alloc);
    for i in 0..env.len() {
        if i > 0 {
            text.push_str(";")?;
        }
        text.push_str(env.name_at(i).unwrap_or(""))?;
        text.push_str(":")?;
        text.push_str(value_text(alloc, env, i)?.as_str())?;
    }
    Ok(text)
}

/// The value of the name in place `i`, as a reply prints it.
pub fn value_text(alloc: Global, env: &Env, i: usize) -> Result<String, Fail> {
    let mut text = String::new(alloc);
    if let Some(value) = env.value_at(i) {
        print(value.as_slice(), &mut text)?;
    }
    Ok(text)
}

/// What is declared, what is inherited, and the environment.
const ROWS: &str = r#"|--a:p;--b:q|--a:p;--b:q
--a:x||--a:x
--b:x|--a:p;--b:q;--c:r|--a:p;--b:x;--c:r
--a:x;--c:y|--b:p;--d:q|--a:x;--b:p;--c:y;--d:q
--A:x;--a:y|--B:p|--A:x;--B:p;--a:y
--a:initial|--a:p|
--a:inherit|--a:p|--a:p
--a:unset|--a:p|--a:p
--a:revert|--a:p|--a:p
--a: INHERIT |--a:p|--a:p
--a:inherit||
--a:inherit x|--a:p|--a:inherit x
--a:var(--z,initial)|--a:p|
--a:var(--z,inherit)|--a:p|--a:p
--a:var(--z, Unset )|--a:p|--a:p
--a:var(--z,revert)|--a:p|--a:p
--a:var(--b)initial;--b:|--a:p|--b:
--a:var(--b);--b:initial|--a:p;--b:q|--a:p
--a:var(--b,y);--b:initial|--b:q|--a:y
--a:var(--b);--b:x||--a:x;--b:x
--a:var(--b) c;--b:var(--c);--c:x||--a:x c;--b:x;--c:x
--a:VAR( --b );--b:x||--a:x;--b:x
--a:var(--z)|--z:p|--a:p;--z:p
--a:var(--b);--b:x|--b:p|--a:x;--b:x
--a:var(--a)||
--a:var(--a)|--a:p|--a:p
--a:var(--a,x)|--a:p|--a:p
--a:var(--b);--b:var(--a)||
--a:var(--b);--b:var(--a)|--a:p;--b:q|--a:p;--b:q
--a:var(--b);--b:var(--c);--c:var(--a)||
--a:var(--c,x);--b:var(--a,x);--c:var(--b,x)|--b:q|--b:q
--a:var(--z,var(--a));--z:x|--a:p|--a:p;--z:x
--a:var(--z,var(--b));--b:var(--a,x)|--b:q|--b:q
--a:x var(--b,f(var(--a)));--b:y||--b:y
--a:var(--a) var(--b);--b:x||--b:x
--a:var(--b);--b:var(--b)||
--a:var(--b,x);--b:var(--b)||--a:x
--a:var(--b);--b:var(--b)|--a:p;--b:q|--a:q;--b:q
--a:var(--b,x);--b:var(--c);--c:var(--b);--d:var(--a)||--a:x;--d:x
--a:var(--z)|--a:p|--a:p
--a:x var(--z) y||
--a:var(--b);--b:var(--z)|--a:p;--b:q|--a:q;--b:q
--a:var(--b,var(--z));--b:x||--a:x;--b:x
--a:var(--z,y)|--a:p|--a:y
--a:var(--z,)|--a:p|--a:
--a:var(--z,var(--y,x))||--a:x
--a:  x  y ||--a:x y
--a:var(--z, x )||--a:x
--a:f( var(--b) );--b: x ||--a:f( x );--b:x"#;

#[test]
fn rows(rt: HostRuntime) -> Result<(), Fail> {
    let alloc = rt.alloc();
    for row in ROWS.lines() {
        if let Some((declared, rest)) = row.split_once('|') {
            if let Some((inherited, expected)) = rest.split_once('|') {
                let declared = env_of(alloc, declared)?;
                let inherited = env_of(alloc, inherited)?;
                let env = resolve_env(alloc, &declared, &inherited)?;
                assert_eq!(rt; text_of(alloc, &env)?.as_str(), expected);
            }
        }
    }
    Ok(())
}

/// Two environments, and whether they are the same.
const PAIRS: [(&str, &str, bool); 16] = [
    ("", "", true),
    ("--a:x", "--a:x", true),
    (
        "--a:f(x [1.50px],#a) \"s\"",
        "--a:f(x [1.50px],#a) \"s\"",
        true,
    ),
    ("--a:x;--b:y", "--a:x;--b:y", true),
    ("--a:x", "", false),
    ("--a:x", "--b:x", false),
    ("--a:x", "--a:y", false),
    ("--a:x", "--a:X", false),
    ("--a:x;--b:y", "--a:x", false),
    ("--a:x;--b:y", "--a:x;--b:z", false),
    ("--a:f(x)", "--a:f(y)", false),
    ("--a:(x)", "--a:(x", false),
    ("--a:(x)", "--a:[x]", false),
    ("--a:1", "--a:2", false),
    ("--a:+", "--a:-", false),
    ("--a:x y", "--a:x", false),
];

#[test]
fn same_environments(rt: HostRuntime) -> Result<(), Fail> {
    let alloc = rt.alloc();
    for (first, second, same) in PAIRS {
        let first = env_of(alloc, first)?;
        let second = env_of(alloc, second)?;
        assert_eq!(rt; first.same(&second), same);
        assert_eq!(rt; second.same(&first), same);
    }
    Ok(())
}
