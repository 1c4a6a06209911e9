//! The XOR bidders that one canonical file has more often.

ghost use Rattle.std.specs.Prelude.{◌≡◌, ℕ, true, false, ◌+◌, ◌<◌, ◌≤◌, IfOk, length, map};
ghost use Rattle.std.specs.Ordering.{is_lt};
ghost use Rattle.bid_file.specs.declared.limits.TheConstants.{MAX_DUMMY};
ghost use Rattle.valuation.specs.Orders.{bidder_cmp};
ghost use Rattle.canon.specs.Bidders.{offers};
ghost use Rattle.analysis.specs.BidderChanges.{bidder_at, excess_bidders};
ghost use Rattle.analysis.specs.Internal.Orders.{NeverFall};

use bid_file::Bids;
use canon::comparing::BidRun;
use std::alloc::{AllocError, Global};

/// The indices of the bidders that are more often among these than among the others. Of equal bidders the first ones are
/// named: both lists, which are in order, are walked from their ends.
pub(crate) fn excess_bidders<B: Bids>(
    alloc: Global,
    bidders: &[BidRun<'_, B>],
    others: &[BidRun<'_, B>],
) -> Result<Vec<u32>, AllocError>
    requires never_fall { NeverFall (map offers bidders.now) }
    requires others_never_fall { NeverFall (map offers others.now) }
    requires few { length bidders.now ≤ MAX_DUMMY }
    ensures { IfOk result (λ excess. excess.items ≡ excess_bidders (map offers bidders.now) (map offers others.now)) }
{
    let mut excess = Vec::new(alloc);
    let mut end = others.len();
    for index in (0..bidders.len()).rev() {
        let bidder = &bidders[index];
        end = skip_greater(bidder, others, end);
        if end > 0 && bidder.order(&others[end - 1]).is_eq() {
            end -= 1;
        } else {
            excess.push(index as u32)?;
        }
    }
    excess.reverse();
    Ok(excess)
}

/// How many of the others before `end` are left without the last ones, which are greater than the bidder.
fn skip_greater<B: Bids>(bidder: &BidRun<'_, B>, others: &[BidRun<'_, B>], mut end: usize) -> usize
    requires { end ≤ length others.now }
    ensures within { result ≤ end }
    ensures skipped { (index : ℕ) → result ≤ index → index < end
        → is_lt (bidder_cmp (offers bidder.now) (bidder_at (map offers others.now) index)) ≡ true }
    ensures stopped { (index : ℕ) → index + 1 ≡ result
        → is_lt (bidder_cmp (offers bidder.now) (bidder_at (map offers others.now) index)) ≡ false }
{
    while end > 0 && bidder.order(&others[end - 1]).is_lt() {
        end -= 1;
    }
    end
}
