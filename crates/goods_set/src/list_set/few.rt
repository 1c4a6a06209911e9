//! Up to eleven goods, without memory of their own.
ghost use Rattle.std.specs.Prelude.{◌≡◌, ◌+◌, ◌<◌, ◌≤◌, [], ◌∷◌, ◌++◌, length};
ghost use Rattle.std.specs.List.{insert};
ghost use Rattle.goods_set.specs.declared.list_set.few.TheConstants.{INLINE_GOODS};

use std::marker::Model;

/// How many goods fit.
pub(crate) const INLINE_GOODS: usize = 11;

/// Up to `INLINE_GOODS` goods, one after another.
#[derive(Debug, Drop)]
pub(crate) struct FewGoods {
    /// Takes no space, but places the others so that they are moved as whole words.
    words: [u64; 0],
    count: u8,
    goods: [u16; INLINE_GOODS],
}

impl Model for FewGoods {
    ghost use Rattle.std.specs.Prelude.{ℕ, List, take, ◌≤◌};
    ghost use Rattle.goods_set.specs.declared.list_set.few.TheConstants.{INLINE_GOODS};

    ghost Value = { List ℕ };

    ghost view = { λ f. take f.count f.goods };

    ghost invariant = { λ f. f.count ≤ INLINE_GOODS };
}

impl FewGoods {
    pub(crate) fn none() -> FewGoods
        ensures { result ≡ [] }
    {
        FewGoods {
            words: [],
            count: 0,
            goods: [0; INLINE_GOODS],
        }
    }

    pub(crate) fn from_slice(goods: &[u16]) -> FewGoods
        requires { length goods.now ≤ INLINE_GOODS }
        ensures { result ≡ goods.now }
    {
        let mut few = FewGoods::none();
        few.append(goods);
        few
    }

    #[inline(always)]
    pub(crate) fn as_slice(&self) -> &[u16]
        ensures goods { result.now ≡ self.now }
        ensures fits { length self.now ≤ INLINE_GOODS }
    {
        &self.goods[..usize::from(self.count)]
    }

    pub(crate) fn push(&mut self, good: u16)
        requires { length self.old < INLINE_GOODS }
        ensures { self.new ≡ self.old ++ good ∷ [] }
    {
        self.goods[usize::from(self.count)] = good;
        self.count += 1;
    }

    pub(crate) fn append(&mut self, goods: &[u16])
        requires { length self.old + length goods.now ≤ INLINE_GOODS }
        ensures { self.new ≡ self.old ++ goods.now }
    {
        let start = usize::from(self.count);
        let end = start + goods.len();
        self.goods[start..end].copy_from_slice(goods);
        self.count = end as u8;
    }

    /// The goods with another at an index.
    pub(crate) fn with(&self, index: usize, good: u16) -> FewGoods
        requires space { length self.now < INLINE_GOODS }
        requires index { index ≤ length self.now }
        ensures { result ≡ insert self.now index good }
    {
        let goods = self.as_slice();
        let mut with = FewGoods::from_slice(&goods[..index]);
        with.push(good);
        with.append(&goods[index..]);
        with
    }

    pub(crate) fn copy(&self) -> FewGoods
        ensures { result ≡ self.now }
    {
        FewGoods {
            words: [],
            count: self.count,
            goods: self.goods,
        }
    }
}
