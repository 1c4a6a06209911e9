//! What is said of bids that are named as winners: the verdict, its line and its status.

ghost use Rattle.std.specs.Prelude.{◌≡◌, ◌++◌, IfOk, OnOk, decimal};
ghost use Rattle.analysis.specs.AllocationVerdicts.{allocation_status, allocation_text, pair_text};

use crate::winners::lp::push_numbered;
use cats_text::price::push_price;
use std::alloc::{AllocError, Global};

/// The bids are an allocation.
const ALLOCATION: u8 = 0;

/// Two of the bids cannot both win.
const CLASH: u8 = 1;

/// What is said of bids that are named as winners.
#[derive(PartialEq, Eq, Debug, Clone, Copy)]
pub enum AllocationVerdict {
    /// They are an allocation, and this is the sum of their prices, in millionths.
    Revenue(u128),
    /// The first two that cannot both win share a good.
    SharedGood {
        /// The lesser number.
        first: u32,
        /// The greater number.
        second: u32,
        /// The least good that both have.
        good: u16,
    },
    /// The first two that cannot both win share no good, and are of one XOR bidder.
    SharedBidder {
        /// The lesser number.
        first: u32,
        /// The greater number.
        second: u32,
        /// The dummy good of both, counted from 0 behind the real goods.
        dummy: u32,
    },
}

/// The line that is printed, with its LF.
pub fn allocation_text(alloc: Global, verdict: &AllocationVerdict) -> Result<Vec<u8>, AllocError>
    ensures { IfOk result (λ text. text.items ≡ allocation_text verdict.now) }
{
    let mut text = Vec::new(alloc);
    push_line(&mut text, verdict)?;
    Ok(text)
}

fn push_line(text: &mut Vec<u8>, verdict: &AllocationVerdict) -> Result<(), AllocError>
    ensures { OnOk result (text.new.items ≡ text.old.items ++ allocation_text verdict.now) }
{
    match verdict {
        AllocationVerdict::Revenue(millionths) => {
            text.extend_from_slice(b"revenue ")?;
            push_price(text, *millionths)?;
            text.extend_from_slice(b"\n")
        }
        AllocationVerdict::SharedGood {
            first,
            second,
            good,
        } => {
            push_pair(text, *first, *second)?;
            push_numbered(text, b" share good ", usize::from(*good), b"\n")
        }
        AllocationVerdict::SharedBidder {
            first,
            second,
            dummy,
        } => {
            push_pair(text, *first, *second)?;
            push_numbered(
                text,
                b" are of one XOR bidder (dummy good ",
                *dummy as usize,
                b")\n",
            )
        }
    }
}

/// Appends which two bids cannot both win.
fn push_pair(text: &mut Vec<u8>, first: u32, second: u32) -> Result<(), AllocError>
    ensures { OnOk result (text.new.items ≡ text.old.items ++ pair_text first second) }
{
    push_numbered(text, b"bids ", first as usize, b" and ")?;
    push_numbered(text, b"", second as usize, b"")
}

/// The exit status.
pub fn allocation_status(verdict: &AllocationVerdict) -> u8
    ensures { result ≡ allocation_status verdict.now }
{
    match verdict {
        AllocationVerdict::Revenue(_) => ALLOCATION,
        AllocationVerdict::SharedGood { .. } | AllocationVerdict::SharedBidder { .. } => CLASH,
    }
}
