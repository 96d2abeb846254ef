//! The declarations of a block that are kept, a shorthand as its longhands (CSS Syntax 3, section
//! 5.4.6; CSS Cascade 4, section 3; CSS Custom Properties 1, sections 2 and 3).
ghost use Rattle.cascade_core.specs.Views.{all_kept_view, kept_for, kept_value_view};
ghost use Rattle.cascade_model.specs.Kept as model;
ghost use Rattle.css_rules.specs.Views.{declaration_view, declarations_view};
ghost use Rattle.css_tokens.specs.Nested.{components_view};
ghost use Rattle.custom_model.specs.References as references;
ghost use Rattle.prop_table.specs.Views.{pairs_view};
ghost use Rattle.std.specs.Prelude.{◌≡◌, [], ◌∷◌, ◌++◌, IfOk, OnOk, map};

use crate::longhands::{longhands_of, props_of_name};
use crate::shared::shared;
use css_rules::{Declaration, Declarations};
use css_tokens::Components;
use custom_props::{copy_of, has_right_vars, has_var, is_custom_name, is_custom_value};
use port_core::{NoMemory, Seq, Text};
use prop_table::{Pairs, Prop, Value};
use std::alloc::Global;
use std::rc::Rc;

/// What a declaration gives a value to.
#[derive(Debug, Drop)]
pub(crate) enum Target {
    /// A property.
    Property(Prop),
    /// The custom property of this name.
    Custom(Rc<Text>),
}

/// A value that is kept.
#[derive(Debug, Drop)]
pub(crate) enum KeptValue {
    /// One that was read.
    Read(Value),
    /// Component values that are read after substitution, and the name in the declaration.
    Whole(Rc<Text>, Rc<Components>),
}

/// A declaration of one property.
#[derive(Debug, Drop)]
pub(crate) struct Kept {
    /// The property.
    pub(crate) target: Target,
    /// Its value, which those who win share.
    pub(crate) value: Rc<KeptValue>,
    /// Whether it was written with `!important`.
    pub(crate) important: bool,
}

/// The declarations that are kept of a list, in their order.
pub(crate) fn kept_declarations(
    alloc: Global,
    declarations: &Declarations,
) -> Result<Seq<Kept>, NoMemory>
    ensures { IfOk result (λ ks. all_kept_view ks
        ≡ model.kept_declarations (declarations_view declarations.now)) }
{
    let mut kept = Seq::new(alloc);
    for declaration in declarations.as_slice() {
        keep(alloc, declaration, &mut kept)?;
    }
    Ok(kept)
}

/// Appends what is kept of a declaration.
fn keep(alloc: Global, declaration: &Declaration, kept: &mut Seq<Kept>) -> Result<(), NoMemory>
    ensures { OnOk result (all_kept_view kept.new
        ≡ all_kept_view kept.old ++ model.kept_of (declaration_view declaration.now)) }
{
    if is_custom_name(declaration.name.as_str()) {
        keep_custom(alloc, declaration, kept)
    } else if is_kept_whole(&declaration.value) {
        keep_whole(alloc, declaration, kept)
    } else {
        keep_read(alloc, declaration, kept)
    }
}

/// Whether a value of a property is kept until its `var()` are replaced.
fn is_kept_whole(value: &Components) -> bool
    ensures { result ≡ references.is_kept_whole (components_view value.now) }
{
    has_var(value) && has_right_vars(value)
}

/// Appends the declaration of a custom property, if its value is right.
fn keep_custom(
    alloc: Global,
    declaration: &Declaration,
    kept: &mut Seq<Kept>,
) -> Result<(), NoMemory>
    ensures { OnOk result (all_kept_view kept.new
        ≡ all_kept_view kept.old ++ model.kept_custom (declaration_view declaration.now)) }
{
    if !is_custom_value(&declaration.value) {
        return Ok(());
    }
    let name = shared(alloc, declaration.name.copy(alloc)?)?;
    let components = shared(alloc, copy_of(alloc, declaration.value.as_slice())?)?;
    let value = shared(alloc, KeptValue::Whole(name.clone()?, components))?;
    kept.push(Kept {
        target: Target::Custom(name),
        value,
        important: declaration.important,
    })
}

/// Appends the whole value for each property that the name of the declaration stands for.
fn keep_whole(
    alloc: Global,
    declaration: &Declaration,
    kept: &mut Seq<Kept>,
) -> Result<(), NoMemory>
    ensures { OnOk result (all_kept_view kept.new
        ≡ all_kept_view kept.old ++ model.kept_whole (declaration_view declaration.now)) }
{
    let props = props_of_name(alloc, &declaration.name)?;
    let value = whole_value(alloc, declaration)?;
    keep_for_each(props.as_slice(), &value, declaration.important, kept)
}

/// The value of a declaration, to be read after substitution.
fn whole_value(alloc: Global, declaration: &Declaration) -> Result<Rc<KeptValue>, NoMemory>
    ensures { IfOk result (λ v. kept_value_view v.value
        ≡ model.whole (declaration_view declaration.now).name
        (declaration_view declaration.now).value) }
{
    let name = shared(alloc, declaration.name.copy(alloc)?)?;
    let components = shared(alloc, copy_of(alloc, declaration.value.as_slice())?)?;
    shared(alloc, KeptValue::Whole(name, components))
}

/// Appends a declaration of each property, with this value.
fn keep_for_each(
    props: &[Prop],
    value: &Rc<KeptValue>,
    important: bool,
    kept: &mut Seq<Kept>,
) -> Result<(), NoMemory>
    ensures { OnOk result (all_kept_view kept.new
        ≡ all_kept_view kept.old
        ++ map (λ p. kept_for (kept_value_view value.now.value) important p) props.now) }
{
    for prop in props {
        kept.push(Kept {
            target: Target::Property(*prop),
            value: value.clone()?,
            important,
        })?;
    }
    Ok(())
}

/// Appends the values that a declaration gives to properties, if its name and its value are right.
fn keep_read(alloc: Global, declaration: &Declaration, kept: &mut Seq<Kept>) -> Result<(), NoMemory>
    ensures { OnOk result (all_kept_view kept.new
        ≡ all_kept_view kept.old ++ model.kept_read (declaration_view declaration.now)) }
{
    match longhands_of(alloc, &declaration.name, &declaration.value)? {
        Some(longhands) => keep_longhands(alloc, &longhands, declaration.important, kept),
        None => Ok(()),
    }
}

/// Appends `longhands`.
fn keep_longhands(
    alloc: Global,
    longhands: &Pairs,
    important: bool,
    kept: &mut Seq<Kept>,
) -> Result<(), NoMemory>
    ensures { OnOk result (all_kept_view kept.new
        ≡ all_kept_view kept.old
        ++ map (model.kept_longhand important) (pairs_view longhands.now)) }
{
    for longhand in longhands.as_slice() {
        kept.push(Kept {
            target: Target::Property(longhand.prop),
            value: shared(alloc, KeptValue::Read(longhand.value.copy(alloc)?))?,
            important,
        })?;
    }
    Ok(())
}
