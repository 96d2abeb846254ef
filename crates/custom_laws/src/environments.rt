//! Laws of environments (CSS Custom Properties 1, sections 2 and 3.1).
ghost use Rattle.custom_laws.specs.Reordered.{AreReordered};
ghost use Rattle.custom_laws.specs.SameEntries.{AreWithoutVar};
ghost use Rattle.custom_model.specs.Environments.{EnvironmentGiven, IsEnvironment};
ghost use Rattle.custom_model.specs.NamedValues.{NamedValues, value_named};
ghost use Rattle.custom_model.specs.inner.Finding.{environment_of};
ghost use Rattle.std.specs.Prelude.{◌≡◌};

/// Whatever is declared and inherited, there is an environment: the one that is found.
pub fn exist()
    ensures { (g : EnvironmentGiven) → IsEnvironment g (environment_of g) }
{}

/// There is no other.
pub fn are_unique()
    ensures { (g : EnvironmentGiven) (environment other : NamedValues)
        → IsEnvironment g environment → IsEnvironment g other → environment ≡ other }
{}

/// The environment does not depend on the order of the declared values, nor on that of the parent's.
pub fn order()
    ensures { (g h : EnvironmentGiven) (environment : NamedValues)
        → AreReordered g.declared h.declared → AreReordered g.inherited h.inherited
        → IsEnvironment g environment → IsEnvironment h environment }
{}

/// No entry has a `var()`, where none of the parent has one.
pub fn none_left()
    ensures { (g : EnvironmentGiven) (environment : NamedValues) → IsEnvironment g environment
        → AreWithoutVar (value_named g.inherited) → AreWithoutVar (value_named environment) }
{}
