//! Rows of sheets with their rules, and of `style` attributes with their declarations (CSS Syntax 3,
//! sections 5.3.3, 5.3.8 and 5.4.1 to 5.4.6).
use css_rules::{
    Component, Condition, ConditionalRule, Declaration, Sheet, SheetFault, StyleRule, parse_sheet,
    parse_style_attr,
};
use port_core::{NoMemory, Seq};
use std::alloc::Global;
use std::process::Abort;
use std::test::Fail;

/// Spells components as they are written, without comments.
fn spell(components: &[Component], spelled: &mut String) -> Result<(), NoMemory> {
    for component in components {
        match component {
            Component::One(token) => spelled.push_str(token.spelling.as_str())?,
            Component::Block(head, contents, close) | Component::Function(head, contents, close) =>
                {
                    spelled.push_str(head.spelling.as_str())?;
                    spell(contents.as_slice(), spelled)?;
                    if let Some(token) = close {
                        spelled.push_str(token.spelling.as_str())?;
                    }
                }
        }
    }
    Ok(())
}

/// Spells declarations: `name=value;`, with `!` before the `;` of one that is important.
fn spell_declarations(declarations: &[Declaration], spelled: &mut String) -> Result<(), NoMemory> {
    for declaration in declarations {
        spelled.push_str(declaration.name.as_str())?;
        spelled.push('=')?;
        spell(declaration.value.as_slice(), spelled)?;
        spelled.push_str(if declaration.important { "!;" } else { ";" })?;
    }
    Ok(())
}

/// The places of the conditions around a rule, the innermost first.
fn places(
    alloc: Global,
    conditions: &[Condition],
    around: Option<usize>,
) -> Result<Seq<usize>, NoMemory> {
    let mut places = Seq::new(alloc);
    let mut next = around;
    for _ in 0..64 {
        let Some(place) = next else {
            return Ok(places);
        };
        places.push(place)?;
        next = match conditions.get(place) {
            Some(condition) => condition.around,
            None => None,
        };
    }
    Ok(places)
}

/// Spells the conditions around a rule, the outermost first: `media(prelude)` or `container(prelude)`.
fn spell_conditions(
    alloc: Global,
    conditions: &[Condition],
    around: Option<usize>,
    spelled: &mut String,
) -> Result<(), NoMemory> {
    let places = places(alloc, conditions, around)?;
    let count = places.len();
    for i in 0..count {
        if let Some(place) = places.get(count - 1 - i) {
            if let Some(condition) = conditions.get(*place) {
                spelled.push_str(match condition.at_rule {
                    ConditionalRule::Media => "media(",
                    ConditionalRule::Container => "container(",
                })?;
                spell(condition.prelude.as_slice(), spelled)?;
                spelled.push_str(") ")?;
            }
        }
    }
    Ok(())
}

/// Spells a rule: its conditions, `<prelude>`, and `{declarations}`.
fn spell_rule(
    alloc: Global,
    sheet: &Sheet,
    rule: &StyleRule,
    spelled: &mut String,
) -> Result<(), NoMemory> {
    spell_conditions(alloc, sheet.conditions.as_slice(), rule.around, spelled)?;
    spelled.push('<')?;
    spell(rule.prelude.as_slice(), spelled)?;
    spelled.push_str(">{")?;
    spell_declarations(rule.declarations.as_slice(), spelled)?;
    spelled.push_str("} ")
}

/// Sheets with their rules.
const SHEETS: &str =
    r#"p{height:1px}@foo x{y}@container (width>1px){q{height:"c => <p>{height=1px;} container((width>1px)) <q>{height="c;} 
/*x*/ a , b{c:d;e}{f:g!important}}h{i:j => <a , b>{c=d;} <>{f=g!;} <}h>{i=j;} 
<!-- a --> b{}--> c{} => <a --> b>{} <c>{} 
@media x{<!-- p{}} => media(x) <<!-- p>{} 
@media x{a{}@container y{b{}@MEDIA z{c{}}}d{}}e{} => media(x) <a>{} media(x) container(y) <b>{} media(x) container(y) media(z) <c>{} media(x) <d>{} <e>{} 
@\6d edia { a{} } => media() <a>{} 
@container{a{}} => container() <a>{} 
@media x;a{} => <a>{} 
@media x a;{b{}} => <>{} 
@media x(;{}){a{} => media(x(;{})) <a>{} 
@media x(;{)}{a{} => 
@foo a{b{}}c{} => <c>{} 
@foo;a{} => <a>{} 
;a{} => <;a>{} 
a;b => 
a{b:c}d => <a>{b=c;} 
a{@foo b{c:d};e:f} => <a>{e=f;} 
a{e:f;@foo;g:h => <a>{e=f;g=h;} "#;

/// `style` attributes with their declarations.
const ATTRIBUTES: &str = r#"a:b => a=b;
 a : b ; => a=b;
;; a:b;;c:d => a=b;c=d;
a: b c  ;d:e => a=b c;d=e;
a: => a=;
a:; b:c => a=;b=c;
a b;c:d => c=d;
a b:c;d:e => d=e;
1:b;c:d => c=d;
a:b!important => a=b!;
a:b ! IMPORTANT ; c:d => a=b!;c=d;
a:!important => a=!;
a:b!important c => a=b!important c;
a:b!!important => a=b!!;
a:b!imp\6f rtant => a=b!;
a:b! => a=b!;
a:important => a=important;
a:{b;c};d:e => a={b;c};d=e;
a:b}c;d:e => a=b}c;d=e;
@foo a:b;c:d => c=d;
@foo{a:b}c:d => c=d;
--A: x => --A=x;
a::b => a=:b;
a/**/ : /**/ b /**/ => a=b;"#;

fn split<'a>(rt: &impl Abort, row: &'a str) -> (&'a str, &'a str) {
    let Some((text, want)) = row.split_once(" =>") else {
        panic!(rt; "nothing to compare in {row}");
    };
    (text, want)
}

fn check_sheet(alloc: Global, rt: &impl Abort, row: &str) -> Result<(), Fail> {
    let (text, want) = split(rt, row);
    let sheet = parse_sheet(alloc, text)?;
    let mut spelled = String::from_str(alloc, " ")?;
    for rule in sheet.rules.as_slice() {
        spell_rule(alloc, &sheet, rule, &mut spelled)?;
    }
    assert_eq!(rt; spelled.as_str(), want, "at {row}");
    assert_eq!(rt; sheet.text.as_str(), text);
    Ok(())
}

fn check_attribute(alloc: Global, rt: &impl Abort, row: &str) -> Result<(), Fail> {
    let (text, want) = split(rt, row);
    let mut spelled = String::from_str(alloc, " ")?;
    spell_declarations(parse_style_attr(alloc, text)?.as_slice(), &mut spelled)?;
    assert_eq!(rt; spelled.as_str(), want, "at {row}");
    Ok(())
}

#[test]
fn rules_of_sheets(rt: HostRuntime) -> Result<(), Fail> {
    for row in SHEETS.lines() {
        check_sheet(rt.alloc(), &rt, row)?;
    }
    let none = parse_sheet(rt.alloc(), "")?;
    assert!(rt; none.rules.is_empty());
    Ok(())
}

#[test]
fn declarations_of_attributes(rt: HostRuntime) -> Result<(), Fail> {
    for row in ATTRIBUTES.lines() {
        check_attribute(rt.alloc(), &rt, row)?;
    }
    Ok(())
}

/// A text, and then another so many times.
fn repeated(alloc: Global, front: &str, text: &str, count: usize) -> Result<String, NoMemory> {
    let mut all = String::from_str(alloc, front)?;
    for _ in 0..count {
        all.push_str(text)?;
    }
    Ok(all)
}

/// The limit that a sheet is above, if there is one.
fn limit(alloc: Global, text: &str) -> Result<Option<SheetFault>, NoMemory> {
    match parse_sheet(alloc, text) {
        Ok(_) => Ok(None),
        Err(SheetFault::NoMemory) => Err(NoMemory),
        Err(fault) => Ok(Some(fault)),
    }
}

#[test]
fn sheets_have_limits(rt: HostRuntime) -> Result<(), Fail> {
    let alloc = rt.alloc();
    let many = repeated(alloc, "", "a{}", 2_000)?;
    assert_eq!(rt; limit(alloc, many.as_str())?, None);
    let more = repeated(alloc, "@media x{a{}}", "a{}", 2_000)?;
    assert_eq!(rt;
        limit(alloc, more.as_str())?,
        Some(SheetFault::TooManyRules)
    );
    let deep = repeated(alloc, "a{}", "[", 64)?;
    assert_eq!(rt; limit(alloc, deep.as_str())?, None);
    let deeper = repeated(alloc, more.as_str(), "[", 65)?;
    assert_eq!(rt; limit(alloc, deeper.as_str())?, Some(SheetFault::TooDeep));
    let large = repeated(alloc, "a{}", " ", 1_048_573)?;
    assert_eq!(rt; limit(alloc, large.as_str())?, None);
    let larger = repeated(alloc, deeper.as_str(), "[", 1_048_576)?;
    assert_eq!(rt; limit(alloc, larger.as_str())?, Some(SheetFault::TooLarge));
    Ok(())
}

#[test]
fn attributes_nest_up_to_a_limit(rt: HostRuntime) -> Result<(), Fail> {
    let deep = repeated(rt.alloc(), "a:b;c:", "[", 64)?;
    assert_eq!(rt; parse_style_attr(rt.alloc(), deep.as_str())?.len(), 2);
    let deeper = repeated(rt.alloc(), "a:b;c:", "[", 65)?;
    assert_eq!(rt; parse_style_attr(rt.alloc(), deeper.as_str())?.len(), 0);
    Ok(())
}

#[test]
fn rules_share_a_condition(rt: HostRuntime) -> Result<(), Fail> {
    let mut text = repeated(rt.alloc(), "@media ", "a ", 250_000)?;
    text.push('{')?;
    let all = repeated(rt.alloc(), text.as_str(), "b{}", 2_000)?;
    let sheet = parse_sheet(rt.alloc(), all.as_str())?;
    assert_eq!(rt; sheet.rules.len(), 2_000);
    assert_eq!(rt; sheet.conditions.len(), 1);
    Ok(())
}
