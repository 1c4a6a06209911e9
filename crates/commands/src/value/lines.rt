//! The lines that `cats value` prints.

ghost use Rattle.std.specs.Prelude.{◌≡◌, ◌<◌, ◌++◌, ◌∷◌, All, IfSome, OnOk, codes, length, map};
ghost use Rattle.std.specs.List.{flat_map, range_with_len};
ghost use Rattle.cats_text.specs.Layout.{price_text};
ghost use Rattle.valuation.specs.Auctions.{xor_atoms_of};
ghost use Rattle.valuation.specs.Bidders.{bidders_of};
ghost use Rattle.valuation.specs.Values.{atoms_of};
ghost use Rattle.commands.specs.Value.{dummy_line, lists_of, numbers_text, option_places, xor_line, xor_numbers};

use crate::printed::cells::push_number;
use bid_file::PackedFile;
use cats_text::price::push_price;
use goods_set::GoodsSet;
use itoa::Integer;
use std::alloc::AllocError;
use valuation::{Atom, Packing, xor_value};

/// Appends the OR value, and the numbers of the bids of its packing.
pub(super) fn push_or_line(
    text: &mut Vec<u8>,
    packing: &Packing,
    numbers: &[usize],
) -> Result<(), AllocError>
    requires { All (λ place. place < length numbers.now) packing.now.members.items }
    ensures { OnOk result (text.new.items ≡ text.old.items
        ++ (codes "or " ++ price_text packing.now.value ++ numbers_text numbers.now packing.now.members.items
        ++ codes "\n")) }
{
    text.extend_from_slice(b"or ")?;
    push_price(text, packing.value)?;
    push_bids(text, numbers, packing.members.as_slice())?;
    text.extend_from_slice(b"\n")
}

/// Appends the lines of the XOR bidders.
pub(super) fn push_xor_lines<S: GoodsSet>(
    text: &mut Vec<u8>,
    file: &PackedFile,
    bidders: &[Vec<Atom<S>>],
    numbers: &[Vec<usize>],
    bundle: &S,
) -> Result<(), AllocError>
    requires bidders { bidders_of S.goods bidders.now ≡ map (xor_atoms_of file.now.bids)
        (range_with_len 0 file.now.dummy) }
    requires numbers { lists_of numbers.now ≡ map (xor_numbers file.now.bids)
        (range_with_len 0 file.now.dummy) }
    ensures { OnOk result (text.new.items ≡ text.old.items
        ++ flat_map (dummy_line file.now (S.goods bundle.now))
        (range_with_len 0 file.now.dummy)) }
{
    let goods = u64::from(file.goods());
    for (dummy, atoms) in bidders.iter().enumerate() {
        let bids = numbers[dummy].as_slice();
        push_xor_line(text, goods + dummy as u64, atoms.as_slice(), bids, bundle)?;
    }
    Ok(())
}

/// Appends a dummy good, the value of its XOR bidder, and the number of the first bid that gives it.
fn push_xor_line<S: GoodsSet>(
    text: &mut Vec<u8>,
    good: u64,
    atoms: &[Atom<S>],
    numbers: &[usize],
    bundle: &S,
) -> Result<(), AllocError>
    requires { length numbers.now ≡ length atoms.now }
    ensures { OnOk result (text.new.items ≡ text.old.items ++ xor_line good (atoms_of S.goods atoms.now) numbers.now
        (S.goods bundle.now)) }
{
    let (value, place) = xor_value(atoms, bundle);
    text.extend_from_slice(b"xor")?;
    push_spaced(text, good)?;
    text.extend_from_slice(b" ")?;
    push_price(text, u128::from(value))?;
    push_bid(text, numbers, place)?;
    text.extend_from_slice(b"\n")
}

/// Appends the number at the place, if there is one.
fn push_bid(text: &mut Vec<u8>, numbers: &[usize], place: Option<usize>) -> Result<(), AllocError>
    requires { IfSome place (λ i. i < length numbers.now) }
    ensures { OnOk result (text.new.items ≡ text.old.items ++ numbers_text numbers.now (option_places place)) }
{
    match place {
        Some(place) => push_bids(text, numbers, &[place]),
        None => Ok(()),
    }
}

/// Appends the numbers at these places.
fn push_bids(text: &mut Vec<u8>, numbers: &[usize], places: &[usize]) -> Result<(), AllocError>
    requires { All (λ place. place < length numbers.now) places.now }
    ensures { OnOk result (text.new.items ≡ text.old.items ++ numbers_text numbers.now places.now) }
{
    for place in places {
        push_spaced(text, numbers[*place])?;
    }
    Ok(())
}

/// Appends a space and the number.
fn push_spaced<I: Integer>(text: &mut Vec<u8>, number: I) -> Result<(), AllocError>
    ensures { OnOk result (text.new.items ≡ text.old.items ++ 32 ∷ I.text number) }
{
    text.extend_from_slice(b" ")?;
    push_number(text, number)
}
