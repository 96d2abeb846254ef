//! How the rows spell selectors: as they are written, in one way.
use port_core::{NoMemory, Seq};
use selectors::{Selector, SelectorList, Simple};
use selectors_model::{AnPlusB, AttributeMatcher, Combinator, Nth, PseudoClass};
use std::alloc::Global;

fn matcher(matcher: AttributeMatcher) -> &'static str {
    match matcher {
        AttributeMatcher::Equals => "=",
        AttributeMatcher::Includes => "~=",
        AttributeMatcher::DashMatch => "|=",
        AttributeMatcher::Prefix => "^=",
        AttributeMatcher::Suffix => "$=",
        AttributeMatcher::Substring => "*=",
    }
}

fn pseudo_class(class: PseudoClass) -> &'static str {
    match class {
        PseudoClass::Root => ":root",
        PseudoClass::FirstChild => ":first-child",
        PseudoClass::LastChild => ":last-child",
        PseudoClass::OnlyChild => ":only-child",
        PseudoClass::FirstOfType => ":first-of-type",
        PseudoClass::LastOfType => ":last-of-type",
        PseudoClass::OnlyOfType => ":only-of-type",
        PseudoClass::Unmatched => ":unmatched",
    }
}

fn combinator(combinator: Combinator) -> &'static str {
    match combinator {
        Combinator::Descendant => " ",
        Combinator::Child => " > ",
        Combinator::NextSibling => " + ",
        Combinator::SubsequentSibling => " ~ ",
    }
}

fn nth(nth: Nth) -> &'static str {
    match nth {
        Nth::Child => ":nth-child",
        Nth::LastChild => ":nth-last-child",
        Nth::OfType => ":nth-of-type",
        Nth::LastOfType => ":nth-last-of-type",
    }
}

/// Spells positions: `(An,B)`.
fn positions(alloc: Global, at: AnPlusB) -> Result<String, NoMemory> {
    format!(in alloc; "({}n,{})", at.step, at.offset)
}

/// Spells a list in a function.
#[cycle(spelling)]
fn function(
    alloc: Global,
    name: &str,
    list: &SelectorList,
    spelled: &mut String,
) -> Result<(), NoMemory> {
    spelled.push_str(name)?;
    members(alloc, list.members.as_slice(), spelled)?;
    spelled.push(')')
}

#[cycle(spelling)]
fn simple(alloc: Global, simple: &Simple, spelled: &mut String) -> Result<(), NoMemory> {
    match simple {
        Simple::Type(name) => spelled.push_str(name.as_str()),
        Simple::Universal => spelled.push('*'),
        Simple::Id(id) => {
            spelled.push('#')?;
            spelled.push_str(id.as_str())
        }
        Simple::Class(name) => {
            spelled.push('.')?;
            spelled.push_str(name.as_str())
        }
        Simple::AttributePresent(name) => {
            spelled.push('[')?;
            spelled.push_str(name.as_str())?;
            spelled.push(']')
        }
        Simple::AttributeValue(name, by, value) => {
            spelled.push('[')?;
            spelled.push_str(name.as_str())?;
            spelled.push_str(matcher(*by))?;
            spelled.push_str(value.as_str())?;
            spelled.push(']')
        }
        Simple::PseudoClass(class) => spelled.push_str(pseudo_class(*class)),
        Simple::NthPseudoClass(counted, at) => {
            spelled.push_str(nth(*counted))?;
            spelled.push_str(positions(alloc, *at)?.as_str())
        }
        Simple::Is(list) => function(alloc, ":is(", list, spelled),
        Simple::Where(list) => function(alloc, ":where(", list, spelled),
        Simple::Not(list) => function(alloc, ":not(", list, spelled),
        Simple::PseudoElement => spelled.push_str("::element"),
    }
}

#[cycle(spelling)]
fn compound(alloc: Global, simples: &[Simple], spelled: &mut String) -> Result<(), NoMemory> {
    for s in simples {
        simple(alloc, s, spelled)?;
    }
    Ok(())
}

#[cycle(spelling)]
fn selector(alloc: Global, selector: &Selector, spelled: &mut String) -> Result<(), NoMemory> {
    compound(alloc, selector.first.as_slice(), spelled)?;
    for link in selector.links.as_slice() {
        spelled.push_str(combinator(link.combinator))?;
        compound(alloc, link.compound.as_slice(), spelled)?;
    }
    Ok(())
}

/// Spells members, with `, ` between them.
#[cycle(spelling)]
fn members(alloc: Global, members: &[Selector], spelled: &mut String) -> Result<(), NoMemory> {
    for i in 0..members.len() {
        if i > 0 {
            spelled.push_str(", ")?;
        }
        selector(alloc, &members[i], spelled)?;
    }
    Ok(())
}

/// Spells a list.
pub(crate) fn spell(alloc: Global, list: &SelectorList) -> Result<String, NoMemory> {
    let mut spelled = String::new(alloc);
    members(alloc, list.members.as_slice(), &mut spelled)?;
    Ok(spelled)
}
