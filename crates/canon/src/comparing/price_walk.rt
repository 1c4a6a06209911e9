//! The bundles on which two lists of bids differ.
//!
//! Both lists are in the order of their bundles. So they are walked side by side, bundle by bundle, and a bundle is named
//! if its two prices differ.

ghost use Rattle.std.specs.Prelude.{◌≡◌, [], IfOk, MatchOption, map};
ghost use Rattle.prune.specs.InOrder.{IsInOrder};
ghost use Rattle.canon.specs.Bidders.{offers};
ghost use Rattle.canon.specs.Internal.PriceWalks.{IsFirstBundle};
ghost use Rattle.canon.specs.PriceChanges.{ArePriceChanges, plain_change};

use crate::comparing::bid_order::order_of_bundles;
use crate::comparing::bid_run::BidRun;
use bid_file::Bids;
use std::alloc::{AllocError, Global};

/// A bundle on which one of two lists of bids has a bid, and the other has none or one at another price.
#[derive(Clone, Copy)]
pub struct PriceChange<'a> {
    /// The goods of the bundle, rising.
    pub goods: &'a [u16],
    /// The price on the left, in millionths, if there is a bid.
    pub left: Option<u64>,
    /// The price on the right, in millionths, if there is a bid.
    pub right: Option<u64>,
}

/// All bundles on which two lists of bids differ, which are in the order of their bundles.
pub fn price_changes<'a, B: Bids>(
    alloc: Global,
    left: &BidRun<'a, B>,
    right: &BidRun<'a, B>,
) -> Result<Vec<PriceChange<'a>>, AllocError>
    requires left_in_order { IsInOrder (offers left.now) }
    requires right_in_order { IsInOrder (offers right.now) }
    ensures { IfOk result (λ changes. ArePriceChanges (offers left.now) (offers right.now)
        (map plain_change changes.items)) }
{
    PriceWalk::new(left, right).collect(alloc)
}

/// What is left of two lists of bids that are walked side by side.
#[derive(Drop)]
pub(crate) struct PriceWalk<'a, B: Bids> {
    left: BidRun<'a, B>,
    right: BidRun<'a, B>,
}

impl<'a, B: Bids> PriceWalk<'a, B> {
    /// The walk from the beginning of both lists.
    pub(crate) fn new(left: &BidRun<'a, B>, right: &BidRun<'a, B>) -> PriceWalk<'a, B>
        ensures left { result.left ≡ left.now }
        ensures right { result.right ≡ right.now }
    {
        PriceWalk {
            left: left.from(0),
            right: right.from(0),
        }
    }

    /// The bundle that comes first, with its two prices, which may be equal. None if no bid is left.
    fn first_bundle(&self) -> Option<PriceChange<'a>>
        ensures { MatchOption result ((self.now.left ≡ []) × (self.now.right ≡ []))
            (λ first. IsFirstBundle (offers self.now.left) (offers self.now.right) (plain_change first)) }
    {
        match (self.left.first(), self.right.first()) {
            (None, None) => None,
            (Some(own), None) => Some(PriceChange {
                goods: own.goods,
                left: Some(own.price),
                right: None,
            }),
            (None, Some(other)) => Some(PriceChange {
                goods: other.goods,
                left: None,
                right: Some(other.price),
            }),
            (Some(own), Some(other)) => {
                let order = order_of_bundles(own.goods, other.goods);
                Some(PriceChange {
                    goods: if order.is_le() {
                        own.goods
                    } else {
                        other.goods
                    },
                    left: order.is_le().then_some(own.price),
                    right: order.is_ge().then_some(other.price),
                })
            }
        }
    }
}

/// Gives each bundle on which the lists differ, with both prices.
impl<'a, B: Bids> Iterator for PriceWalk<'a, B> {
    ghost use Rattle.std.specs.Iterator.{YieldsFirstBy, item_count};
    ghost use Rattle.canon.specs.Bidders.{offers};
    ghost use Rattle.canon.specs.Internal.PriceWalks.{changes_of};
    ghost use Rattle.canon.specs.PriceChanges.{plain_change};

    type Item = PriceChange<'a>;

    ghost next_gives = { YieldsFirstBy plain_change (λ w. changes_of (offers w.left) (offers w.right)) };

    ghost remaining = { item_count (λ w. changes_of (offers w.left) (offers w.right)) };

    fn next(&mut self) -> Option<PriceChange<'a>> {
        while let Some(bundle) = self.first_bundle() {
            self.left = self.left.from(usize::from(bundle.left.is_some()));
            self.right = self.right.from(usize::from(bundle.right.is_some()));
            if bundle.left != bundle.right {
                return Some(bundle);
            }
        }
        None
    }
}
