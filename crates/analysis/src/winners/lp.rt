//! The winner determination problem as a text in CPLEX's LP format.

ghost use Rattle.std.specs.Prelude.{◌≡◌, ◌++◌, IfOk, OnOk, codes, decimal, map};
ghost use Rattle.std.specs.List.{flat_map};
ghost use Rattle.bid_file.specs.Files.{IsPlainFile};
ghost use Rattle.analysis.specs.Bids.{bid_at, numbers_of};
ghost use Rattle.analysis.specs.Internal.RowTexts.{instead};
ghost use Rattle.analysis.specs.LpTexts.{amount_text, are_sums_exact, binary_line, lp_rows, lp_text, price_term, row_name};
ghost use Rattle.analysis.specs.LpTexts.{row_text, unit_line};

use crate::winners::bids_by_good::bids_by_good;
use bid_file::{Bids, PackedFile};
use cats_text::price::push_price;
use itoa::Buffer;
use std::alloc::{AllocError, Global};

/// Sums of prices below this, in millionths, are exact in a floating-point number of 64 bits, which solvers add in.
const EXACT_SUMS: u128 = 1 << 53;

/// The winner determination problem of a file, whose optimum is the greatest revenue, in CPLEX's LP format.
/// Its prices are millionths if a solver can add them all without an error, and else they have decimals.
pub fn lp_text(alloc: Global, file: &PackedFile) -> Result<Vec<u8>, AllocError>
    requires { IsPlainFile file.now }
    ensures { IfOk result (λ text. text.items ≡ lp_text file.now) }
{
    let rows = rows_text(alloc, file)?;
    let rows = rows.as_slice();
    let exact = are_sums_exact(file);
    let mut text = Vec::from_slice(alloc, unit_line(exact).as_bytes())?;
    text.extend_from_slice(b"Maximize\n revenue:\n")?;
    push_prices(&mut text, file, exact)?;
    push_instead(&mut text, rows, b" + 0 none\n")?;
    text.extend_from_slice(b"Subject To\n")?;
    text.extend_from_slice(rows)?;
    push_instead(&mut text, rows, b" none:\n + none\n <= 1\n")?;
    text.extend_from_slice(b"Binary\n")?;
    push_variables(&mut text, file)?;
    push_instead(&mut text, rows, b" none\n")?;
    text.extend_from_slice(b"End\n")?;
    Ok(text)
}

/// Whether the sum of all prices, in millionths, is exact in a solver's numbers, and so each sum of some of them.
fn are_sums_exact(file: &PackedFile) -> bool
    requires { IsPlainFile file.now }
    ensures { result ≡ are_sums_exact file.now }
{
    let mut sum: u128 = 0;
    for number in 0..file.len() {
        sum += u128::from(file.at(number).price);
    }
    sum < EXACT_SUMS
}

/// The first line: what the prices below it are.
fn unit_line<'a>(exact: bool) -> &'a str
    ensures { result.now ≡ unit_line exact }
{
    if exact {
        "\\ revenue in millionths\n"
    } else {
        "\\ revenue in units, as sums of millionths can pass 2^53\n"
    }
}

/// The text of the rows.
fn rows_text(alloc: Global, file: &PackedFile) -> Result<Vec<u8>, AllocError>
    requires { IsPlainFile file.now }
    ensures { IfOk result (λ text. text.items ≡ flat_map row_text (lp_rows file.now)) }
{
    let goods = usize::from(file.goods());
    let lists = bids_by_good(alloc, file)?;
    let mut text = Vec::new(alloc);
    for good in 0..lists.len() {
        let bids = lists[good].as_slice();
        let shared = bids.len() > 1;
        if shared {
            push_row(&mut text, goods, good, bids)?;
        }
    }
    Ok(text)
}

/// Appends the row of a good, which is a dummy good if it is not below the number of real goods.
fn push_row(text: &mut Vec<u8>, goods: usize, good: usize, bids: &[u32]) -> Result<(), AllocError>
    ensures { OnOk result (text.new.items
        ≡ text.old.items ++ row_text (record { name = row_name goods good; bids = bids.now })) }
{
    if good < goods {
        push_numbered(text, b" g", good, b":\n")?;
    } else {
        push_numbered(text, b" d", good - goods, b":\n")?;
    }
    for bid in bids {
        push_numbered(text, b" + x", *bid as usize, b"\n")?;
    }
    text.extend_from_slice(b" <= 1\n")
}

/// Appends the price of each bid, by which its variable counts.
fn push_prices(text: &mut Vec<u8>, file: &PackedFile, exact: bool) -> Result<(), AllocError>
    ensures { let f = file.now in OnOk result (text.new.items
        ≡ text.old.items ++ flat_map (λ i. price_term exact (bid_at f i).price i) (numbers_of f)) }
{
    for number in 0..file.len() {
        push_price_term(text, exact, file.at(number).price, number)?;
    }
    Ok(())
}

fn push_price_term(
    text: &mut Vec<u8>,
    exact: bool,
    price: u64,
    number: usize,
) -> Result<(), AllocError>
    ensures { OnOk result (text.new.items ≡ text.old.items ++ price_term exact price number) }
{
    text.extend_from_slice(b" + ")?;
    push_amount(text, exact, price)?;
    push_numbered(text, b" x", number, b"\n")
}

/// Appends a price as the problem has it.
fn push_amount(text: &mut Vec<u8>, exact: bool, price: u64) -> Result<(), AllocError>
    ensures { OnOk result (text.new.items ≡ text.old.items ++ amount_text exact price) }
{
    if exact {
        text.extend_from_slice(Buffer::new().format(price).as_bytes())
    } else {
        push_price(text, u128::from(price))
    }
}

/// Appends the variable of each bid.
fn push_variables(text: &mut Vec<u8>, file: &PackedFile) -> Result<(), AllocError>
    ensures { OnOk result (text.new.items ≡ text.old.items ++ flat_map binary_line (numbers_of file.now)) }
{
    for number in 0..file.len() {
        push_numbered(text, b" x", number, b"\n")?;
    }
    Ok(())
}

/// Appends a number between two texts.
pub(crate) fn push_numbered(
    text: &mut Vec<u8>,
    before: &[u8],
    number: usize,
    behind: &[u8],
) -> Result<(), AllocError>
    ensures { OnOk result (text.new.items ≡ text.old.items ++ (before.now ++ decimal number ++ behind.now)) }
{
    text.extend_from_slice(before)?;
    text.extend_from_slice(Buffer::new().format(number).as_bytes())?;
    text.extend_from_slice(behind)
}

/// Appends a text if there are no rows.
fn push_instead(text: &mut Vec<u8>, rows: &[u8], other: &[u8]) -> Result<(), AllocError>
    ensures { OnOk result (text.new.items ≡ text.old.items ++ instead rows.now other.now) }
{
    if rows.is_empty() {
        text.extend_from_slice(other)
    } else {
        Ok(())
    }
}
