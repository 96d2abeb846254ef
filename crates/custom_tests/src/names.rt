//! Names with values, in order; which values and names are those of custom properties.
use crate::texts::{append, components_of, env_of};
use custom_props::{Env, has_right_vars, has_var, is_custom_name, is_custom_value};
use std::test::Fail;

#[test]
fn names_in_order(rt: HostRuntime) -> Result<(), Fail> {
    let alloc = rt.alloc();
    let mut env = env_of(alloc, "--B:x;--a:y;--ab:z")?;
    assert_eq!(rt; env.len(), 3);
    assert_eq!(rt; env.name_at(1), Some("--a"));
    assert_eq!(rt; env.name_at(3), None);
    assert!(rt; env.value_at(2).is_some());
    assert!(rt; env.value_at(3).is_none());
    assert!(rt; !append(alloc, &mut env, "--ab", "x")?);
    assert!(rt; !append(alloc, &mut env, "--aa", "x")?);
    assert!(rt; append(alloc, &mut env, "--é", "x")?);
    assert_eq!(rt; env.len(), 4);
    assert_eq!(rt; Env::new(alloc).len(), 0);
    Ok(())
}

#[test]
fn custom_names(rt: HostRuntime) -> Result<(), Fail> {
    for name in ["--a", "---", "--é", "--0"] {
        assert!(rt; is_custom_name(name));
    }
    for name in ["", "-", "--", "-a", "a", "-é-"] {
        assert!(rt; !is_custom_name(name));
    }
    Ok(())
}

/// A value, whether it has a `var()`, whether each is of the right form, and whether the value is one of
/// a custom property.
const VALUES: [(&str, bool, bool, bool); 12] = [
    ("", false, true, true),
    ("x (y)", false, true, true),
    ("x;y", false, true, false),
    ("(x;y)", false, true, true),
    ("x!", false, true, false),
    ("x)", false, true, false),
    ("(x])", false, true, false),
    ("[var( --a )]", true, true, true),
    ("var(--a,(;))", true, true, true),
    ("var(--a,;)", true, false, false),
    ("var()", true, false, false),
    ("f(VAR(--a b))", true, false, false),
];

#[test]
fn values(rt: HostRuntime) -> Result<(), Fail> {
    let alloc = rt.alloc();
    for (text, var, right, custom) in VALUES {
        let value = components_of(alloc, text)?;
        assert_eq!(rt; has_var(&value), var);
        assert_eq!(rt; has_right_vars(&value), right);
        assert_eq!(rt; is_custom_value(&value), custom);
    }
    Ok(())
}
