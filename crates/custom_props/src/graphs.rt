//! Which declared names refer to which, by their places (CSS Custom Properties 1, section 2.3).
ghost use Rattle.css_tokens.specs.Nested.{component_view, components_view};
ghost use Rattle.custom_model.specs.NamedValues.{are_in_order, names_of};
ghost use Rattle.custom_model.specs.References as model;
ghost use Rattle.custom_props.specs.Views.{values_view};
ghost use Rattle.custom_props.specs.inner.Graphs as graphs;
ghost use Rattle.custom_props.specs.inner.Graphs.{places_in, places_of, successors};
ghost use Rattle.std.specs.Prelude.{◌≡◌, ◌++◌, IfOk, OnOk, true, [], ◌∷◌};

use crate::named_value::NamedValue;
use crate::places::place_of;
use crate::references::{is_var_type, name_in};
use css_tokens::Component;
use port_core::{NoMemory, Seq};
use std::alloc::Global;

/// The places to which a place refers.
pub(crate) fn successors(graph: &[Seq<usize>], place: usize) -> &[usize]
    ensures { result.now ≡ successors graph.now place }
{
    match graph.get(place) {
        Some(places) => places.as_slice(),
        None => &[],
    }
}

/// Of each declared name, the places of the declared names to which its value refers.
pub(crate) fn graph_of(alloc: Global, declared: &[NamedValue]) -> Result<Seq<Seq<usize>>, NoMemory>
    requires { are_in_order (names_of (values_view declared.now)) ≡ true }
    ensures { IfOk result (λ graph. graph ≡ graphs.graph_of (values_view declared.now)) }
{
    let mut graph = Seq::new(alloc);
    for declaration in declared {
        let mut places = Seq::new(alloc);
        add_places(declaration.value.as_slice(), declared, &mut places)?;
        graph.push(places)?;
    }
    Ok(graph)
}

/// Appends the places of the declared names to which component values refer.
#[cycle(places)]
fn add_places(
    components: &[Component],
    declared: &[NamedValue],
    places: &mut Seq<usize>,
) -> Result<(), NoMemory>
    requires { are_in_order (names_of (values_view declared.now)) ≡ true }
    ensures { OnOk result (places.new ≡ places.old
        ++ places_of (names_of (values_view declared.now)) (components_view components.now)) }
{
    for c in components {
        add_places_of(c, declared, places)?;
    }
    Ok(())
}

#[cycle(places)]
fn add_places_of(
    c: &Component,
    declared: &[NamedValue],
    places: &mut Seq<usize>,
) -> Result<(), NoMemory>
    requires { are_in_order (names_of (values_view declared.now)) ≡ true }
    ensures { OnOk result (places.new ≡ places.old
        ++ places_in (names_of (values_view declared.now)) (model.vars_in (component_view c.now))) }
{
    match c {
        Component::One(_) => Ok(()),
        Component::Block(_, contents, _) => add_places(contents.as_slice(), declared, places),
        Component::Function(head, contents, _) => {
            if is_var_type(&head.token_type) {
                add_place_in(contents.as_slice(), declared, places)?;
            }
            add_places(contents.as_slice(), declared, places)
        }
    }
}

/// Appends the place of the declared name to which a `var()` with these contents refers, if there is
/// one.
fn add_place_in(
    contents: &[Component],
    declared: &[NamedValue],
    places: &mut Seq<usize>,
) -> Result<(), NoMemory>
    requires { are_in_order (names_of (values_view declared.now)) ≡ true }
    ensures { OnOk result (places.new ≡ places.old
        ++ places_in (names_of (values_view declared.now)) (components_view contents.now ∷ [])) }
{
    let Some(name) = name_in(contents) else {
        return Ok(());
    };
    match place_of(declared, name.as_str()) {
        Some(place) => places.push(place),
        None => Ok(()),
    }
}
