//! Worked rows of the definitions, computed by the prover: the table of the commands.

ghost use Rattle.std.specs.Prelude.{◌≡◌, ◌∷◌, [], codes, map};
ghost use Rattle.requests.specs.Tasks.{files_of, names_with};
ghost use Rattle.requests.specs.declared.task.TheConstants.{TASKS};

/// Which commands there are, and what they take.
pub fn commands()
    ensures files { map (λ row. files_of row.task) TASKS ≡ map (λ row. row.files) TASKS }
    ensures bound { names_with (λ row. row.bound) ≡ codes "value" ∷ codes "normalise" ∷ codes "compare" ∷ [] }
    ensures limits { names_with (λ row. row.limits) ≡ codes "value" ∷ codes "normalise" ∷ codes "explain" ∷ codes "compare"
        ∷ codes "diff" ∷ codes "duplicates" ∷ codes "sizes" ∷ codes "publish" ∷ [] }
    ensures folder { names_with (λ row. row.folder) ≡ codes "publish" ∷ [] }
{}
