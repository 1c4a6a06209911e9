//! The goods of a set. A few of them are in the value itself, more are in a vector.
ghost use Rattle.std.specs.Prelude.{◌≡◌, ◌≤◌, [], length, IfOk, OnOk, OnErr};
ghost use Rattle.std.specs.List.{insert};

use crate::list_set::few::{FewGoods, INLINE_GOODS};
use std::alloc::{AllocError, Global};
use std::marker::Model;

#[derive(Debug, Drop)]
pub(crate) enum Held {
    Few(Global, FewGoods),
    Many(Vec<u16>),
}

/// Goods, one after another. As long as they are few they take no memory of their own.
#[derive(Debug, Drop)]
pub(crate) struct Goods {
    pub(crate) held: Held,
}

impl Model for Goods {
    ghost use Rattle.std.specs.Prelude.{ℕ, List};

    ghost Value = { List ℕ };

    ghost use Rattle.goods_set.specs.Internal.Held.{held_goods};

    ghost view = { λ g. held_goods g.held };
}

impl Goods {
    pub(crate) fn none(alloc: Global) -> Goods
        ensures { result ≡ [] }
    {
        Goods {
            held: Held::Few(alloc, FewGoods::none()),
        }
    }

    pub(crate) fn from_slice(alloc: Global, goods: &[u16]) -> Result<Goods, AllocError>
        ensures { IfOk result (λ g. g ≡ goods.now) }
    {
        if goods.len() <= INLINE_GOODS {
            return Ok(Goods {
                held: Held::Few(alloc, FewGoods::from_slice(goods)),
            });
        }
        Ok(Goods {
            held: Held::Many(goods.to_vec(alloc)?),
        })
    }

    #[inline(always)]
    pub(crate) fn as_slice(&self) -> &[u16]
        ensures { result.now ≡ self.now }
    {
        match &self.held {
            Held::Few(_, few) => few.as_slice(),
            Held::Many(many) => many.as_slice(),
        }
    }

    /// Puts a good in at an index.
    pub(crate) fn insert(&mut self, index: usize, good: u16) -> Result<(), AllocError>
        requires { index ≤ length self.old }
        ensures goods { OnOk result (self.new ≡ insert self.old index good) }
        ensures same { OnErr result (self.new ≡ self.old) }
    {
        match &mut self.held {
            Held::Few(alloc, few) => {
                let goods = few.as_slice();
                if goods.len() < INLINE_GOODS {
                    *few = few.with(index, good);
                } else {
                    let mut many = Vec::with_capacity(*alloc, 2 * INLINE_GOODS)?;
                    many.extend_from_slice(goods)?;
                    many.insert(index, good)?;
                    self.held = Held::Many(many);
                }
            }
            Held::Many(many) => many.insert(index, good)?,
        }
        Ok(())
    }

    pub(crate) fn copy(&self) -> Result<Goods, AllocError>
        ensures { IfOk result (λ g. g ≡ self.now) }
    {
        Ok(Goods {
            held: match &self.held {
                Held::Few(alloc, few) => Held::Few(*alloc, few.copy()),
                Held::Many(many) => Held::Many(many.clone()?),
            },
        })
    }
}
