//! Rows of texts with their conditions and values (Media Queries 4, sections 3 and 3.1).
use crate::device::{Anything, Device};
use css_tokens::{TokenFault, components, tokenize};
use port_core::NoMemory;
use std::alloc::Global;
use std::process::Abort;
use std::test::Fail;
use tri_conditions::{Condition, Tri, eval, read_condition};

/// Texts with their values: of examples of the standard, of each pair of values, and of what stands
/// beside the grammar.
const VALUES: &str = r#"(color) and (pointer) or (hover) => none
(color) and ((pointer) or (hover)) => no
((color) and (pointer)) or (hover) => yes
(not (color)) or (hover) => yes
(hover) and (not (color)) => yes
(foo) or (hover) => yes
(hover) => yes
(color) => no
(foo) => unknown
not (hover) => no
not (color) => yes
not (foo) => unknown
(hover) and (hover) => yes
(hover) and (color) => no
(hover) and (foo) => unknown
(color) and (hover) => no
(color) and (color) => no
(color) and (foo) => no
(foo) and (hover) => unknown
(foo) and (color) => no
(foo) and (foo) => unknown
(hover) or (hover) => yes
(hover) or (color) => yes
(hover) or (foo) => yes
(color) or (hover) => yes
(color) or (color) => no
(color) or (foo) => unknown
(foo) or (hover) => yes
(foo) or (color) => unknown
(foo) or (foo) => unknown
(hover) and (hover) and (color) => no
(color) or (color) or (hover) => yes
((hover)) => yes
/**/(/**/(hover)/**/)/**/ => yes
((hover => yes
NOT (color) => yes
n\6ft (color) => yes
not/**/(color) => yes
(hover) AnD (hover) => yes
(color) oR (hover) => yes
(hover)and (hover) => yes
(not (not (hover))) => yes
not ((color) or (foo)) => unknown
not ((hover) and (color)) => yes
(}) or (hover) => yes
not(color) => unknown
f() or (hover) => yes
f((hover)) => unknown
() => unknown
(hover color) => unknown
(not hover) => unknown
(hover and (a) => unknown
((hover) and (hover) or (hover)) => unknown
not () => unknown
 => none
and => none
not => none
hover => none
[hover] => none
(hover) (hover) => none
(hover), (hover) => none
(hover) xor (hover) => none
(hover)) => none
(hover) and [hover] => none
(hover) and(hover) => none
(hover) and => none
(hover) or (hover) or => none
and (hover) => none
(hover) and and (hover) => none
(color) or (hover) and (hover) => none
not not (hover) => none
(hover) not => none
not (color) and (hover) => none
not (color) or (hover) => none
(hover) and not (color) => none
not (color) (hover) => none"#;

/// Texts with their conditions, where each part that is asked for is a feature: `x`, `?` for an
/// enclosed part, `!` for `not`, and `&( )` and `|( )` around parts with `and` and `or` between
/// them.
const ASKED: &str = r#"(a) => x
(a b) => x
((a b)) => x
(not (a)) => !x
(not a) => x
not(a) => x
f((a) and (b)) => x
((a) and b) => x
((a) and (b)) or f() => |(&(xx)x)
(a) and ((b) or (c)) and not(d) => &(x|(xx)x)
[a] => -
a => -"#;

/// Spells a condition.
#[cycle(spelling)]
fn spell<Q>(condition: &Condition<Q>, spelled: &mut String) -> Result<(), NoMemory> {
    match condition {
        Condition::Feature(_) => spelled.push('x'),
        Condition::Enclosed => spelled.push('?'),
        Condition::Not(negated) => {
            spelled.push('!')?;
            spell(negated.get(), spelled)
        }
        Condition::All(parts) => {
            spelled.push_str("&(")?;
            spell_all(parts.as_slice(), spelled)
        }
        Condition::Any(parts) => {
            spelled.push_str("|(")?;
            spell_all(parts.as_slice(), spelled)
        }
    }
}

/// Spells conditions, and `)`.
#[cycle(spelling)]
fn spell_all<Q>(conditions: &[Condition<Q>], spelled: &mut String) -> Result<(), NoMemory> {
    for condition in conditions {
        spell(condition, spelled)?;
    }
    spelled.push(')')
}

/// The value of the condition that a text is, if it is one.
fn value(alloc: Global, text: &str) -> Result<Option<Tri>, TokenFault> {
    let components = components(alloc, &tokenize(alloc, text)?)?;
    let condition = read_condition(alloc, &components, &Device)?;
    Ok(condition.map(|condition| eval(&condition, &Device)))
}

fn named(value: Option<Tri>) -> &'static str {
    match value {
        Some(Tri::Yes) => "yes",
        Some(Tri::No) => "no",
        Some(Tri::Unknown) => "unknown",
        None => "none",
    }
}

fn split<'a>(rt: &impl Abort, row: &'a str) -> (&'a str, &'a str) {
    let Some((text, want)) = row.split_once(" => ") else {
        panic!(rt; "nothing to compare in {row}");
    };
    (text, want)
}

#[test]
fn conditions_have_values(rt: HostRuntime) -> Result<(), Fail> {
    for row in VALUES.lines() {
        let (text, want) = split(&rt, row);
        assert_eq!(rt; named(value(rt.alloc(), text)?), want, "at {row}");
    }
    Ok(())
}

#[test]
fn parts_without_a_condition_are_asked_for(rt: HostRuntime) -> Result<(), Fail> {
    for row in ASKED.lines() {
        let (text, want) = split(&rt, row);
        let components = components(rt.alloc(), &tokenize(rt.alloc(), text)?)?;
        let mut spelled = String::new(rt.alloc());
        match read_condition(rt.alloc(), &components, &Anything)? {
            Some(condition) => spell(&condition, &mut spelled)?,
            None => spelled.push('-')?,
        }
        assert_eq!(rt; spelled.as_str(), want, "at {row}");
    }
    Ok(())
}

/// A text so many times, and then another.
fn repeated(alloc: Global, text: &str, count: usize, end: &str) -> Result<String, NoMemory> {
    let mut all = String::new(alloc);
    for _ in 0..count {
        all.push_str(text)?;
    }
    all.push_str(end)?;
    Ok(all)
}

#[test]
fn conditions_nest_and_are_long(rt: HostRuntime) -> Result<(), Fail> {
    let alloc = rt.alloc();
    let deep = repeated(alloc, "(", 64, "hover")?;
    assert_eq!(rt; value(alloc, deep.as_str())?, Some(Tri::Yes));
    let negated = repeated(alloc, "(not ", 63, "(hover)")?;
    assert_eq!(rt; value(alloc, negated.as_str())?, Some(Tri::No));
    let all = repeated(alloc, "(hover) and ", 9_999, "(hover)")?;
    assert_eq!(rt; value(alloc, all.as_str())?, Some(Tri::Yes));
    let not_all = repeated(alloc, "(hover) and ", 9_999, "(foo)")?;
    assert_eq!(rt; value(alloc, not_all.as_str())?, Some(Tri::Unknown));
    let any = repeated(alloc, "(color) or ", 9_999, "(hover)")?;
    assert_eq!(rt; value(alloc, any.as_str())?, Some(Tri::Yes));
    Ok(())
}
