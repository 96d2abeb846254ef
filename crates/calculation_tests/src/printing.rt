//! How calculations are printed in rows.
use port_core::{NoMemory, Seq};
use query_units::{Computed, UnitSet};
use std::alloc::Global;

/// Prints a computed calculation: a tree, or units alone.
#[cycle(trees)]
pub fn print_tree(alloc: Global, c: &Computed, printed: &mut String) -> Result<(), NoMemory> {
    match c {
        Computed::Units(length) => {
            print_number(alloc, "", length.get() as i64, printed)?;
        }
        Computed::Px(number) => print_number(alloc, "px:", number.get(), printed)?,
        Computed::Pct(number) => print_number(alloc, "pct:", number.get(), printed)?,
        Computed::Add(a, b) => {
            printed.push_str("add(")?;
            print_tree(alloc, a.get(), printed)?;
            printed.push(',')?;
            print_tree(alloc, b.get(), printed)?;
            printed.push(')')?;
        }
        Computed::Scale(a, number) => {
            printed.push_str("scale(")?;
            print_tree(alloc, a.get(), printed)?;
            print_number(alloc, ",", number.get(), printed)?;
            printed.push(')')?;
        }
        Computed::Over(a, number) => {
            printed.push_str("over(")?;
            print_tree(alloc, a.get(), printed)?;
            print_number(alloc, ",", number.get(), printed)?;
            printed.push(')')?;
        }
        Computed::Min(first, others) => {
            printed.push_str("min(")?;
            print_tree(alloc, first.get(), printed)?;
            print_others(alloc, others, printed)?;
        }
        Computed::Max(first, others) => {
            printed.push_str("max(")?;
            print_tree(alloc, first.get(), printed)?;
            print_others(alloc, others, printed)?;
        }
    }
    Ok(())
}

#[cycle(trees)]
fn print_others(
    alloc: Global,
    others: &Seq<Computed>,
    printed: &mut String,
) -> Result<(), NoMemory> {
    for other in others.as_slice() {
        printed.push(',')?;
        print_tree(alloc, other, printed)?;
    }
    printed.push(')')
}

/// Prints a number behind a tag.
pub fn print_number(
    alloc: Global,
    tag: &str,
    number: i64,
    printed: &mut String,
) -> Result<(), NoMemory> {
    printed.push_str(tag)?;
    let text = format!(in alloc; "{number}")?;
    printed.push_str(text.as_str())
}

/// Prints the bases of a set.
pub fn print_bases(set: UnitSet, printed: &mut String) -> Result<(), NoMemory> {
    let names = [
        (set.em, " em"),
        (set.rem, " rem"),
        (set.vw, " vw"),
        (set.vh, " vh"),
        (set.cqw, " cqw"),
        (set.cqh, " cqh"),
    ];
    for (is, name) in names {
        if is {
            printed.push_str(name)?;
        }
    }
    Ok(())
}
