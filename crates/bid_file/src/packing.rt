//! The packed file of any `Bids`.

ghost use Rattle.std.specs.Prelude.{◌≡◌, IfOk};

use crate::bids::Bids;
use crate::packed::{PackedBids, PackedFile};
use std::alloc::{AllocError, Global};

/// The same file in little memory.
pub fn pack<B: Bids>(alloc: Global, file: &B) -> Result<PackedFile, AllocError>
    ensures { IfOk result (λ f. f ≡ B.file file.now) }
{
    let goods = file.goods();
    let count = file.len();
    let mut bids = PackedBids::new(alloc);
    bids.reserve(count)?;
    for number in 0..count {
        let bid = file.at(number);
        bids.push(bid.price, bid.goods, bid.dummy)?;
    }
    Ok(PackedFile::new(goods, file.dummy(), bids))
}
