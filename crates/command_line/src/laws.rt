//! Laws of the definitions: what the forms of each command request. `EachRequests` has as many paths behind the options
//! as the command reads.

ghost use Rattle.std.specs.Prelude.{◌≡◌, ◌++◌, ℕ, All, List, [], ◌∷◌, None, Some, codes, true, unwrap_or};
ghost use Rattle.clap.specs.ValueTests.{is_unsigned_in};
ghost use Rattle.command_line.specs.Commands.{is_always_bounded};
ghost use Rattle.command_line.specs.Numbers.{limit_of};
ghost use Rattle.command_line.specs.Requests.{EachRequests, IsNoRequestOf, is_no_memory, paths_for, request_of};
ghost use Rattle.command_line.specs.Requests.{unless_signed, usual, usual_options};
ghost use Rattle.command_line.specs.declared.request.NoRequest.{NoRequest};
ghost use Rattle.requests.specs.Requests.{PlainRequest};
ghost use Rattle.requests.specs.Tasks.{is_many, name_of};
ghost use Rattle.requests.specs.declared.task.TheConstants.{TASKS};
ghost use Rattle.rounding.specs.Replacements.{price_rule};
ghost use Rattle.rounding.specs.declared.replacement.FinePrices.TheVariants.{Refuse, Round};
ghost use Rattle.valuation.specs.SearchLimits.{bounded_options};

/// Any paths, after `--`.
pub fn paths_after_hyphens()
    ensures { (program first second : List ℕ)
        → All (λ row. request_of (program ∷ name_of row.task ∷ codes "--" ∷ paths_for row first second)
        ≡ Some (usual row.task (paths_for row first second))) TASKS }
{}

/// Each command with just its paths, in their order, and with each flag that it has. The path of a list of bids is any
/// that follows `--bids=`.
pub fn options()
    ensures { EachRequests (λ row. true) [] (λ task paths. Some (usual task paths))
        × EachRequests (λ row. row.rounding) (codes "--round" ∷ [])
        (λ task paths. Some (record (usual task paths) { prices = Some (price_rule Round 0) }))
        × EachRequests (λ row. row.rounding) (codes "--round-exact" ∷ [])
        (λ task paths. Some (record (usual task paths) { prices = Some (price_rule Refuse 0) }))
        × EachRequests (λ row. row.exact) (codes "--exact" ∷ [])
        (λ task paths. Some (record (usual task paths) { prices = Some (price_rule Refuse 0) }))
        × EachRequests (λ row. row.times) (codes "--times=1000000" ∷ [])
        (λ task paths. Some (record (usual task paths) { prices = Some (price_rule Round 6) }))
        × EachRequests (λ row. row.limits) (codes "--bound" ∷ [])
        (λ task paths. Some (record (usual task paths) {
          options = bounded_options 1000000 (usual_options task).total;
        }))
        × EachRequests (λ row. is_many row.files) (codes "--progress" ∷ [])
        (λ task paths. Some (record (usual task paths) { progress = true }))
        × EachRequests (λ row. row.null) (codes "--null" ∷ [])
        (λ task paths. Some (record (usual task paths) { null = true }))
        × EachRequests (λ row. row.all) (codes "--all" ∷ [])
        (λ task paths. Some (record (usual task paths) { all = true }))
        × EachRequests (λ row. row.table) (codes "--table" ∷ [])
        (λ task paths. Some (record (usual task paths) { table = true }))
        × ((list : List ℕ) → EachRequests (λ row. row.bids) ((codes "--bids=" ++ list) ∷ [])
        (λ task paths. Some (record (usual task paths) { list = Some list }))) }
{}

/// The limits, whose values may follow `=`, or be the next words (`worked::lines`). The limit of all searches together is of
/// the bounded search, and not of the plain one.
pub fn limits()
    ensures steps { (text : List ℕ) → is_unsigned_in 1 1000000000 text ≡ true
        → EachRequests (λ row. row.limits) ((codes "--steps=" ++ text) ∷ [])
        (λ task paths. unless_signed text (record (usual task paths) {
          options = record (usual_options task) { each = unwrap_or (limit_of text) 0 };
        })) }
    ensures total { (text : List ℕ) → is_unsigned_in 1 1000000000000 text ≡ true
        → EachRequests (λ row. row.limits) (codes "--bound" ∷ (codes "--total-steps=" ++ text) ∷ [])
        (λ task paths. unless_signed text
        (record (usual task paths) { options = bounded_options 1000000 (limit_of text) })) }
    ensures always_bounded { (text : List ℕ) → is_unsigned_in 1 1000000000000 text ≡ true
        → EachRequests is_always_bounded ((codes "--total-steps=" ++ text) ∷ [])
        (λ task paths. unless_signed text
        (record (usual task paths) { options = bounded_options 1000000 (limit_of text) })) }
    ensures plain { (text : List ℕ)
        → EachRequests (λ row. row.bound) ((codes "--total-steps=" ++ text) ∷ []) (λ task paths. None) }
{}

/// Only want of memory may come in the place of a request.
pub fn request_or_memory()
    ensures { (words : List (List ℕ)) (request : PlainRequest) (answer : NoRequest) → request_of words ≡ Some request
        → IsNoRequestOf words answer → is_no_memory answer ≡ true }
{}
