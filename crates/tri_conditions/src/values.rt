//! Values of conditions (Media Queries 4, section 3.1).
ghost use Rattle.conditions_model.specs.ConditionTrees.{condition_value, all_value, any_value};
ghost use Rattle.conditions_model.specs.TriTables.{tri_not, tri_and, tri_or};
ghost use Rattle.std.specs.Prelude.{◌≡◌};
ghost use Rattle.tri_conditions.specs.Views.{condition_view, conditions_view};

use crate::condition::Condition;
use crate::judge::Judge;
use conditions_model::Tri;
use port_core::Seq;

/// Returns the value of the condition `c`, where `j` knows that of each feature.
///
/// The calls are as deep as the condition nests.
#[cycle(values)]
pub fn eval<Q, J: Judge<Q>>(c: &Condition<Q>, j: &J) -> Tri
    ensures { result ≡ condition_value (J.judges j.now) (condition_view c.now) }
{
    match c {
        Condition::Feature(q) => j.judge(q),
        Condition::Enclosed => Tri::Unknown,
        Condition::Not(negated) => not(eval(negated.get(), j)),
        Condition::All(parts) => all(parts, j),
        Condition::Any(parts) => any(parts, j),
    }
}

/// The value of conditions with `and` between them.
#[cycle(values)]
fn all<Q, J: Judge<Q>>(parts: &Seq<Condition<Q>>, j: &J) -> Tri
    ensures { result ≡ all_value (J.judges j.now) (conditions_view parts.now) }
{
    let mut value = Tri::Yes;
    for part in parts.as_slice() {
        value = and(value, eval(part, j));
    }
    value
}

/// The value of conditions with `or` between them.
#[cycle(values)]
fn any<Q, J: Judge<Q>>(parts: &Seq<Condition<Q>>, j: &J) -> Tri
    ensures { result ≡ any_value (J.judges j.now) (conditions_view parts.now) }
{
    let mut value = Tri::No;
    for part in parts.as_slice() {
        value = or(value, eval(part, j));
    }
    value
}

fn not(v: Tri) -> Tri
    ensures { result ≡ tri_not v }
{
    match v {
        Tri::Yes => Tri::No,
        Tri::No => Tri::Yes,
        Tri::Unknown => Tri::Unknown,
    }
}

fn and(a: Tri, b: Tri) -> Tri
    ensures { result ≡ tri_and a b }
{
    match (a, b) {
        (Tri::No, _) | (_, Tri::No) => Tri::No,
        (Tri::Yes, Tri::Yes) => Tri::Yes,
        _ => Tri::Unknown,
    }
}

fn or(a: Tri, b: Tri) -> Tri
    ensures { result ≡ tri_or a b }
{
    match (a, b) {
        (Tri::Yes, _) | (_, Tri::Yes) => Tri::Yes,
        (Tri::No, Tri::No) => Tri::No,
        _ => Tri::Unknown,
    }
}
