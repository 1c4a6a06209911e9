//! Worked rows of the definitions, computed by the prover: what command lines request.
#![tactic(auto, unfolding(clap::proofs::OnLiterals::clap_on_literals))]

ghost use Rattle.std.specs.Prelude.{◌≡◌, [], ◌∷◌, None, Some, codes, false, is_some, map, option_map, true};
ghost use Rattle.std.specs.List.{flat_map, list_any};
ghost use Rattle.clap.specs.Faults.{fault_of};
ghost use Rattle.clap.specs.declared.error.kind.ErrorKind.TheVariants.{UnknownArgument};
ghost use Rattle.command_line.specs.Commands.{cats};
ghost use Rattle.command_line.specs.NumberLists.{numbers_of_word};
ghost use Rattle.command_line.specs.Numbers.{tens_of};
ghost use Rattle.command_line.specs.Requests.{misuse_of, request_of, usual, words_in};
ghost use Rattle.command_line.specs.declared.request.Misuse.TheVariants.{BidsTwice, MoreThanOneFile, MoreThanTwoFiles};
ghost use Rattle.command_line.specs.declared.request.Misuse.TheVariants.{SignedNumber, UnboundedTotal};
ghost use Rattle.command_line.specs.declared.request.Misuse.TheVariants.{FilesTwice, NoFiles, WrongBids, WrongGoods};
ghost use Rattle.command_line.specs.declared.request.Misuse.TheVariants.{WrongTimes};
ghost use Rattle.requests.specs.declared.task.Task.TheVariants.{Check, Compare, Diff, Duplicates, Explain, Fault};
ghost use Rattle.requests.specs.declared.task.Task.TheVariants.{Normalise, Publish, Revenue, Show, Sizes, Value};
ghost use Rattle.requests.specs.declared.task.Task.TheVariants.{Round as RoundText};
ghost use Rattle.rounding.specs.Replacements.{price_rule};
ghost use Rattle.rounding.specs.declared.replacement.FinePrices.TheVariants.{Refuse, Round};
ghost use Rattle.valuation.specs.SearchLimits.{bounded_options, plain_options};

/// Options may come between files, and goods after them.
pub fn lines()
    ensures value { request_of (words_in (codes "cats value a --steps 7 0 2"))
        ≡ Some (record (usual Value (codes "a" ∷ [])) { goods = 0 ∷ 2 ∷ []; options = plain_options 7 }) }
    ensures compare { request_of (words_in (codes "cats compare a --steps=9 b"))
        ≡ Some (record (usual Compare (codes "a" ∷ codes "b" ∷ [])) { options = plain_options 9 }) }
    ensures duplicates { request_of (words_in (codes "cats duplicates -0 a b"))
        ≡ Some (record (usual Duplicates (codes "a" ∷ codes "b" ∷ [])) { null = true }) }
    ensures sizes { request_of (words_in (codes "cats sizes --progress --files0-from=l"))
        ≡ Some (record (usual Sizes []) { list = Some (codes "l"); progress = true }) }
    ensures publish { request_of (words_in (codes "cats publish d a --all b"))
        ≡ Some (record (usual Publish (codes "d" ∷ codes "a" ∷ codes "b" ∷ [])) { all = true }) }
    ensures published { request_of (words_in (codes "cats publish d --files0-from=l"))
        ≡ Some (record (usual Publish (codes "d" ∷ [])) { list = Some (codes "l") }) }
{}

/// The flag and the limits, in any order.
pub fn limits()
    ensures before { request_of (words_in (codes "cats normalise --bound --total-steps=5 a"))
        ≡ Some (record (usual Normalise (codes "a" ∷ [])) { options = bounded_options 1000000 (Some 5) }) }
    ensures after { request_of (words_in (codes "cats normalise a --total-steps 5 --bound"))
        ≡ Some (record (usual Normalise (codes "a" ∷ [])) { options = bounded_options 1000000 (Some 5) }) }
    ensures compare { request_of (words_in (codes "cats compare --total-steps=5 a --bound b --steps=9"))
        ≡ Some (record (usual Compare (codes "a" ∷ codes "b" ∷ [])) { options = bounded_options 9 (Some 5) }) }
    ensures value { request_of (words_in (codes "cats value a --bound 3"))
        ≡ Some (record (usual Value (codes "a" ∷ [])) { goods = 3 ∷ []; options = bounded_options 1000000 None }) }
    ensures explain { request_of (words_in (codes "cats explain --total-steps=1000000000000 a"))
        ≡ Some (record (usual Explain (codes "a" ∷ [])) { options = bounded_options 1000000 (Some 1000000000000) }) }
    ensures always { map (λ line. request_of (words_in line)) (codes "cats explain a" ∷ codes "cats diff a b"
        ∷ codes "cats duplicates a --total-steps=5" ∷ codes "cats sizes a" ∷ [])
        ≡ map (λ line. request_of (words_in line)) (codes "cats explain --bound a" ∷ codes "cats diff a --bound b"
        ∷ codes "cats duplicates --bound a --total-steps=5" ∷ codes "cats sizes a --bound" ∷ []) }
    ensures usual { map (λ line. option_map (λ request. request.options) (request_of (words_in line)))
        (codes "cats explain a" ∷ codes "cats diff a b" ∷ codes "cats duplicates a" ∷ codes "cats sizes a --bound"
        ∷ codes "cats publish d a" ∷ codes "cats normalise a --bound" ∷ codes "cats compare a b" ∷ [])
        ≡ Some (bounded_options 1000000 (Some 50000000)) ∷ Some (bounded_options 1000000 (Some 50000000))
        ∷ Some (bounded_options 1000000 (Some 50000000)) ∷ Some (bounded_options 1000000 (Some 50000000))
        ∷ Some (bounded_options 1000000 (Some 50000000)) ∷ Some (bounded_options 1000000 None)
        ∷ Some (plain_options 1000000) ∷ [] }
    ensures sizes { request_of (words_in (codes "cats sizes a --total-steps=5 --steps=7"))
        ≡ Some (record (usual Sizes (codes "a" ∷ [])) { options = bounded_options 7 (Some 5) }) }
{}

/// The flags that round prices. With both of them the exact one holds.
pub fn rounding()
    ensures value { request_of (words_in (codes "cats value a --round 3"))
        ≡ Some (record (usual Value (codes "a" ∷ [])) { goods = 3 ∷ []; prices = Some (price_rule Round 0) }) }
    ensures revenue { request_of (words_in (codes "cats revenue --round a 3"))
        ≡ Some (record (usual Revenue (codes "a" ∷ [])) { bids = 3 ∷ []; prices = Some (price_rule Round 0) }) }
    ensures diff { request_of (words_in (codes "cats diff a b --round"))
        ≡ Some (record (usual Diff (codes "a" ∷ codes "b" ∷ [])) { prices = Some (price_rule Round 0) }) }
    ensures duplicates { request_of (words_in (codes "cats duplicates --round a"))
        ≡ Some (record (usual Duplicates (codes "a" ∷ [])) { prices = Some (price_rule Round 0) }) }
    ensures sizes { request_of (words_in (codes "cats sizes --files0-from=l --round"))
        ≡ Some (record (usual Sizes []) { list = Some (codes "l"); prices = Some (price_rule Round 0) }) }
    ensures both { map (λ line. request_of (words_in line))
        (codes "cats check --round --round-exact a" ∷ codes "cats show --round-exact a --round" ∷ [])
        ≡ map (λ task. Some (record (usual task (codes "a" ∷ [])) { prices = Some (price_rule Refuse 0) })) (Check ∷ Show ∷ []) }
    ensures fault { request_of (words_in (codes "cats fault a --round b"))
        ≡ Some (record (usual Fault (codes "a" ∷ codes "b" ∷ [])) { prices = Some (price_rule Round 0) }) }
    ensures refused { map (λ line. fault_of cats (words_in line)) (codes "cats fault -0 a"
        ∷ codes "cats round --round a" ∷ codes "cats round --round-exact a" ∷ [])
        ≡ (UnknownArgument ∷ []) ∷ (UnknownArgument ∷ []) ∷ (UnknownArgument ∷ []) ∷ [] }
{}

/// The factor of prices, which is a power of ten.
pub fn factors()
    ensures rounded { request_of (words_in (codes "cats round --times 1000000 a"))
        ≡ Some (record (usual RoundText (codes "a" ∷ [])) { prices = Some (price_rule Round 6) }) }
    ensures exact { request_of (words_in (codes "cats round a --exact --times=1000000000000"))
        ≡ Some (record (usual RoundText (codes "a" ∷ [])) { prices = Some (price_rule Refuse 12) }) }
    ensures once { request_of (words_in (codes "cats round --times=1 a"))
        ≡ Some (record (usual RoundText (codes "a" ∷ [])) { prices = Some (price_rule Round 0) }) }
    ensures powers { map tens_of (0 ∷ 1 ∷ 2 ∷ 10 ∷ 11 ∷ 20 ∷ 100 ∷ 1000000000000 ∷ 10000000000000 ∷ [])
        ≡ None ∷ Some 0 ∷ None ∷ Some 1 ∷ None ∷ None ∷ Some 2 ∷ Some 12 ∷ None ∷ [] }
{}

/// Bids, and the flags of `duplicates` for all files and for a table.
pub fn bids_and_files()
    ensures given { request_of (words_in (codes "cats revenue a 65535 0,1 3-5 1"))
        ≡ Some (record (usual Revenue (codes "a" ∷ [])) { bids = 65535 ∷ 0 ∷ 1 ∷ 3 ∷ 4 ∷ 5 ∷ [] }) }
    ensures listed { request_of (words_in (codes "cats revenue --bids l a"))
        ≡ Some (record (usual Revenue (codes "a" ∷ [])) { list = Some (codes "l") }) }
    ensures all { request_of (words_in (codes "cats duplicates a --all"))
        ≡ Some (record (usual Duplicates (codes "a" ∷ [])) { all = true }) }
    ensures table { request_of (words_in (codes "cats duplicates --table a --all b"))
        ≡ Some (record (usual Duplicates (codes "a" ∷ codes "b" ∷ [])) { all = true; table = true }) }
{}

/// Goods are numbers, lists and ranges. Each is there once, where it is named first.
pub fn goods()
    ensures line { request_of (words_in (codes "cats value a 0-2 7,4,5-6 1"))
        ≡ Some (record (usual Value (codes "a" ∷ [])) { goods = 0 ∷ 1 ∷ 2 ∷ 7 ∷ 4 ∷ 5 ∷ 6 ∷ [] }) }
    ensures again { request_of (words_in (codes "cats value a 3,0,3 0-4 2"))
        ≡ Some (record (usual Value (codes "a" ∷ [])) { goods = 3 ∷ 0 ∷ 1 ∷ 2 ∷ 4 ∷ [] }) }
    ensures words { map (numbers_of_word 4095) (codes "3" ∷ codes "3-3" ∷ codes "4094-4095" ∷ codes "1,1" ∷ [])
        ≡ Some (3 ∷ []) ∷ Some (3 ∷ []) ∷ Some (4094 ∷ 4095 ∷ []) ∷ Some (1 ∷ 1 ∷ []) ∷ [] }
    ensures wrong_words { map (numbers_of_word 4095) (codes "19-0" ∷ codes "0-" ∷ codes "-3" ∷ codes "1,,2" ∷ [] ∷ codes "1,"
        ∷ codes "1-2-3" ∷ codes "+1" ∷ codes "1,+2" ∷ codes "4096" ∷ codes "0-4096" ∷ codes "65536" ∷ codes "1 2"
        ∷ codes "x" ∷ [])
        ≡ None ∷ None ∷ None ∷ None ∷ None ∷ None ∷ None ∷ None ∷ None ∷ None ∷ None ∷ None ∷ None ∷ None ∷ [] }
{}

/// Lines that `clap` takes and that request nothing: why. The space at the end of one line is before an empty word.
pub fn misused_lines()
    ensures { let lines = map words_in (codes "cats normalise --total-steps=5 a" ∷ codes "cats value a 0 --total-steps 5"
        ∷ codes "cats normalise --steps=+5 a" ∷ codes "cats diff --total-steps=+5 a b" ∷ codes "cats value a 0 +1"
        ∷ codes "cats value a -- -0" ∷ codes "cats revenue a +0" ∷ codes "cats sizes --total-steps=5"
        ∷ codes "cats sizes --files0-from a b" ∷ codes "cats revenue a 0 --bids=l" ∷ codes "cats value a 19-0"
        ∷ codes "cats round --times=+10 a" ∷ codes "cats round a --times 20"
        ∷ codes "cats value a 0 " ∷ codes "cats revenue a 65536" ∷ codes "cats revenue a 3-0" ∷ codes "cats check a b"
        ∷ codes "cats normalise a --bound b c" ∷ codes "cats diff a b c" ∷ codes "cats compare a b c d" ∷ []) in
        (flat_map (fault_of cats) lines ≡ []) × (list_any (λ line. is_some (request_of line)) lines ≡ false)
        × (map misuse_of lines ≡ UnboundedTotal ∷ UnboundedTotal ∷ SignedNumber ∷ SignedNumber ∷ SignedNumber
        ∷ SignedNumber ∷ SignedNumber ∷ NoFiles ∷ FilesTwice ∷ BidsTwice ∷ WrongGoods ∷ SignedNumber
        ∷ WrongTimes ∷ WrongGoods ∷ WrongBids ∷ WrongBids ∷ MoreThanOneFile ∷ MoreThanOneFile ∷ MoreThanTwoFiles
        ∷ MoreThanTwoFiles ∷ []) }
{}

/// Lines that request nothing.
pub fn wrong_lines()
    ensures { map (λ line. request_of (words_in line)) (codes "cats" ∷ codes "cats check" ∷ codes "cats Check a"
        ∷ codes "cats check --help" ∷ codes "cats value --steps 0 a" ∷ codes "cats value a 65536"
        ∷ codes "cats sizes -0 --null a" ∷ codes "cats explain --bound --bound a" ∷ codes "cats explain --total-steps=0 a"
        ∷ codes "cats sizes" ∷ codes "cats diff a" ∷ codes "cats publish d" ∷ codes "cats round --times=0 a" ∷ codes "cats check --times=10 a"
        ∷ codes "cats round --times=10000000000000 a" ∷ codes "cats round --times=1e6 a" ∷ [])
        ≡ None ∷ None ∷ None ∷ None ∷ None ∷ None ∷ None ∷ None ∷ None ∷ None ∷ None ∷ None ∷ None ∷ None ∷ None ∷ None
        ∷ [] }
{}
