//! What statements about runs say of small ones.
ghost use Rattle.std.specs.Prelude.{◌≡◌, ◌≢◌, ℕ, [], ◌∷◌, Some, None};
ghost use Rattle.stream_model.specs.Ledger.{mark, pair};
ghost use Rattle.stream_model.specs.declared.kind.Kind.TheVariants.{Match};
ghost use Rattle.relayout_cli.specs.Runs.{setting_of, AllOnce, LogsOnce, FaultsBy, HasFewer, IsDoneButForMemory, most_of_first, IsWritten, CountBy};
ghost use Rattle.relayout_cli.specs.inner.Examples.{run_after_faults};
ghost use Rattle.relayout_cli.specs.declared.status.Status.TheVariants.{Done, ReadFault, WriteFault, NoMemory, InputSpent};

/// A run is `Done` only where neither side failed, and a fault is told by the side whose count rose.
pub fn examples_of_causes()
    ensures done_without_faults { FaultsBy Done (run_after_faults 3 5) }
    ensures not_done_with_a_fault_of_the_sink { FaultsBy Done (run_after_faults 3 6) → ⊥ }
    ensures not_done_with_a_fault_of_the_source { FaultsBy Done (run_after_faults 4 5) → ⊥ }
    ensures read_fault { FaultsBy ReadFault (run_after_faults 3 6) → ⊥ }
    ensures write_fault { FaultsBy WriteFault (run_after_faults 4 5) → ⊥ }
    ensures a_script_has_fewer { HasFewer (Some (1 ∷ 2 ∷ 3 ∷ [])) 0 0 }
    ensures a_count_has_fewer { HasFewer None 5 4294967300 }
    ensures a_count_has_not_fewer { HasFewer None 5 4294967301 → ⊥ }
    ensures spent { CountBy InputSpent 4294967296 }
    ensures not_spent { CountBy InputSpent 4294967295 → ⊥ }
    ensures not_read_fault_at_the_end { CountBy ReadFault 4294967296 → ⊥ }
    ensures done_before_the_end { CountBy Done 4294967296 → ⊥ }
{}

/// All of a text is written, unless the sink failed.
pub fn examples_of_what_is_written()
    ensures done { IsWritten (setting_of 1) Done ([] ∷ []) (1 ∷ 2 ∷ []) (1 ∷ 2 ∷ []) }
    ensures not_done_in_part { IsWritten (setting_of 1) Done ([] ∷ []) (1 ∷ 2 ∷ []) (1 ∷ []) → ⊥ }
    ensures not_read_fault_in_part { IsWritten (setting_of 1) ReadFault ([] ∷ []) (1 ∷ 2 ∷ []) (1 ∷ [])
        → ⊥ }
    ensures not_without_memory_in_part { IsWritten (setting_of 1) NoMemory ([] ∷ []) (1 ∷ 2 ∷ []) (1 ∷ [])
        → ⊥ }
    ensures not_spent_in_part { IsWritten (setting_of 1) InputSpent ([] ∷ []) (1 ∷ 2 ∷ []) (1 ∷ []) → ⊥ }
    ensures write_fault_in_part { IsWritten (setting_of 1) WriteFault ([] ∷ []) (1 ∷ 2 ∷ []) (1 ∷ []) }
{}

/// A log has no pair twice, and the setting is the one of the profile.
pub fn examples_of_logs()
    ensures setting { (setting_of 2).profile ≡ 2 }
    ensures advances { (setting_of 1).advances ≡ record { default = 32; ranges = [] } }
    ensures once { AllOnce (((Match, 1) ∷ (Match, 2) ∷ []) ∷ ((Match, 1) ∷ []) ∷ []) }
    ensures twice { AllOnce (((Match, 1) ∷ (Match, 1) ∷ []) ∷ []) → ⊥ }
    ensures marked { LogsOnce (pair Match 7 ∷ []) (pair Match 7 ∷ mark ∷ pair Match 1 ∷ []) }
    ensures no_line { most_of_first [] ≡ 0 }
{}
