//! Bundles from lists of goods.

ghost use Rattle.std.specs.Prelude.{◌≡◌, ◌<◌, All, IfOk};
ghost use Rattle.commands.specs.Value.{bundle_from};

use goods_set::GoodsSet;
use std::alloc::{AllocError, Global};

/// The bundle of these goods, in any order and with any of them repeated.
pub(super) fn bundle_of<S: GoodsSet>(alloc: Global, goods: &[u16]) -> Result<S, AllocError>
    requires { All (λ good. good < S.CAP) goods.now }
    ensures { IfOk result (λ bundle. S.goods bundle ≡ bundle_from goods.now) }
{
    let mut bundle = S::empty(alloc)?;
    for good in goods {
        bundle.put(*good)?;
    }
    Ok(bundle)
}
