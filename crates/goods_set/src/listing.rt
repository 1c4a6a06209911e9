//! The goods of a set as a list.
ghost use Rattle.std.specs.Prelude.{◌≡◌, IfOk};

use crate::set::GoodsSet;
use std::alloc::{AllocError, Global};

/// The goods of a set, rising.
pub fn goods_of<S: GoodsSet>(alloc: Global, set: &S) -> Result<Vec<u16>, AllocError>
    ensures { IfOk result (λ goods. goods.items ≡ S.goods set.now) }
{
    let mut goods = Vec::with_capacity(alloc, set.size())?;
    set.list_into(&mut goods)?;
    Ok(goods)
}

/// The goods of a set, rising: where they are so in memory, or else in `buffer`, in the place of what was there.
pub fn rising_goods<'a, S: GoodsSet>(
    set: &'a S,
    buffer: &'a mut Vec<u16>,
) -> Result<&'a [u16], AllocError>
    ensures { IfOk result (λ goods. goods.now ≡ S.goods set.now) }
{
    match set.as_slice() {
        Some(goods) => Ok(goods),
        None => {
            buffer.clear();
            set.list_into(buffer)?;
            Ok(buffer.as_slice())
        }
    }
}
