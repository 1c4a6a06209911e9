//! A law of what a call prints.

ghost use Rattle.std.specs.Prelude.{◌≡◌, ◌≢◌, ◌<◌, ℕ, false, List, [], ◌∷◌, Some};
ghost use Rattle.cats_cmd.specs.OneText.{PrintsOf};
ghost use Rattle.cats_c.specs.Calls.{CallsProgram, Puts, names_of, request_of};
ghost use Rattle.cats_c.specs.declared.call.CallRequest.{CallRequest};
ghost use Rattle.cats_c.specs.declared.call.CallText.{CallText};
ghost use Rattle.commands.specs.Meanings.{outcome_of};
ghost use Rattle.requests.specs.Requests.{PlainRequest};
ghost use Rattle.requests.specs.Tasks.{files_of};
ghost use Rattle.requests.specs.declared.task.Files.TheVariants.{One};
ghost use Rattle.requests.specs.declared.task.Task.TheVariants.{Round};

/// A call on one bid file that ends in success prints what its command makes of the file that the text spells.
pub fn one_text_is_read()
    ensures { (request : CallRequest) (text : CallText) (asked : PlainRequest) (out out_new : List ℕ) (needed : ℕ)
        (err err_new : List ℕ) (err_needed status : ℕ) → request_of request (names_of (text ∷ [])) ≡ Some asked
        → files_of asked.task ≡ One → asked.task ≢ Round
        → CallsProgram request (text ∷ []) out out_new needed err err_new err_needed status → status < 2
        → (printed : List ℕ) × Puts printed out out_new needed
        × PrintsOf (outcome_of asked request.bids.now false) asked.prices text.bytes.now status printed }
{}
