//! The cells of the tables that `cats explain` and `cats diff` print. A cell is empty if there is nothing.

ghost use Rattle.std.specs.Prelude.{◌≡◌, ◌++◌, OnOk};
ghost use Rattle.commands.specs.Outputs.{list_text, number_cell, price_cell};

use cats_text::price::push_price;
use itoa::{Buffer, Integer};
use std::alloc::AllocError;

/// Appends a number.
pub(crate) fn push_number<I: Integer>(text: &mut Vec<u8>, number: I) -> Result<(), AllocError>
    ensures { OnOk result (text.new.items ≡ text.old.items ++ I.text number) }
{
    text.extend_from_slice(Buffer::new().format(number).as_bytes())
}

/// Appends a number, if there is one.
pub(crate) fn push_number_cell(text: &mut Vec<u8>, number: Option<u32>) -> Result<(), AllocError>
    ensures { OnOk result (text.new.items ≡ text.old.items ++ number_cell number) }
{
    match number {
        Some(number) => push_number(text, number),
        None => Ok(()),
    }
}

/// Appends a price, if there is one.
pub(crate) fn push_price_cell(text: &mut Vec<u8>, price: Option<u64>) -> Result<(), AllocError>
    ensures { OnOk result (text.new.items ≡ text.old.items ++ price_cell price) }
{
    match price {
        Some(price) => push_price(text, u128::from(price)),
        None => Ok(()),
    }
}

/// Appends numbers, with this byte between each two.
pub(crate) fn push_list<I: Integer + Copy>(
    text: &mut Vec<u8>,
    between: u8,
    numbers: &[I],
) -> Result<(), AllocError>
    ensures { OnOk result (text.new.items ≡ text.old.items ++ list_text between I.text numbers.now) }
{
    let Some((first, rest)) = numbers.split_first() else {
        return Ok(());
    };
    push_number(text, *first)?;
    for number in rest {
        text.push(between)?;
        push_number(text, *number)?;
    }
    Ok(())
}
