//! Worked rows of what a caller in C writes. The prover computes them.

ghost use Rattle.std.specs.Prelude.{◌≡◌, [], ◌∷◌, Some, None, codes, false, map, option_map, true};
ghost use Rattle.requests.specs.Tasks.{name_of};
ghost use Rattle.rounding.specs.Replacements.{price_rule};
ghost use Rattle.rounding.specs.declared.replacement.FinePrices.TheVariants.{Refuse, Round};
ghost use Rattle.valuation.specs.SearchLimits.{bounded_options, plain_options};
ghost use Rattle.cats_c.specs.Calls.{names_of, request_of, total_of};
ghost use Rattle.cats_c.specs.Examples.{asked, named};

/// A limit on all searches together: 0 is none.
pub fn totals()
    ensures zero { total_of 0 ≡ None }
    ensures one { total_of 1 ≡ Some 1 }
    ensures greatest { total_of 18446744073709551615 ≡ Some 18446744073709551615 }
{}

/// The name of a text, or its number.
pub fn names()
    ensures { names_of (map named ([] ∷ codes "a" ∷ [] ∷ [])) ≡ codes "1" ∷ codes "a" ∷ codes "3" ∷ [] }
{}

/// Some commands, by their numbers.
pub fn commands()
    ensures { map (λ task. option_map (λ request. name_of request.task) (request_of (asked task 0 true 9) []))
        (0 ∷ 1 ∷ 12 ∷ 255 ∷ []) ≡ Some (codes "check") ∷ Some (codes "fault") ∷ Some (codes "sizes") ∷ None ∷ [] }
{}

/// What comes with a command.
pub fn requests()
    ensures files { option_map (λ request. request.files) (request_of (asked 9 0 true 0) (codes "a" ∷ codes "b" ∷ []))
        ≡ Some (codes "a" ∷ codes "b" ∷ []) }
    ensures goods { option_map (λ request. request.goods) (request_of (asked 3 0 true 0) []) ≡ Some (7 ∷ []) }
    ensures bids { option_map (λ request. request.bids) (request_of (asked 4 0 true 0) []) ≡ Some (8 ∷ []) }
    ensures list { option_map (λ request. request.list) (request_of (asked 4 0 true 0) []) ≡ Some None }
    ensures null { option_map (λ request. request.null) (request_of (asked 12 0 true 0) []) ≡ Some true }
    ensures all { option_map (λ request. request.all) (request_of (asked 11 0 true 0) []) ≡ Some true }
    ensures table { option_map (λ request. request.table) (request_of (asked 11 0 true 0) []) ≡ Some true }
    ensures progress { option_map (λ request. request.progress) (request_of (asked 11 0 true 0) []) ≡ Some false }
    ensures prices { map (λ prices. option_map (λ request. request.prices) (request_of (asked 7 prices true 0) []))
        (0 ∷ 1 ∷ 2 ∷ 3 ∷ []) ≡ Some None ∷ Some (Some (price_rule Round 0))
        ∷ Some (Some (price_rule Refuse 0)) ∷ Some (Some (price_rule Refuse 0)) ∷ [] }
{}

/// How the searches go. A command that lets the caller choose them has no limit of all plain ones together, and another one
/// always uses bounded ones.
pub fn searches()
    ensures bounded { option_map (λ request. request.options) (request_of (asked 5 0 true 9) [])
        ≡ Some (bounded_options 5 (Some 9)) }
    ensures plain { option_map (λ request. request.options) (request_of (asked 5 0 false 0) []) ≡ Some (plain_options 5) }
    ensures unbounded { map (λ task. request_of (asked task 0 false 9) []) (3 ∷ 5 ∷ 9 ∷ []) ≡ None ∷ None ∷ None ∷ [] }
    ensures always { map (λ task. option_map (λ request. request.options) (request_of (asked task 0 false 9) []))
        (6 ∷ 12 ∷ []) ≡ Some (bounded_options 5 (Some 9)) ∷ Some (bounded_options 5 (Some 9)) ∷ [] }
{}
