//! The goods of the bid that is being read.

ghost use Rattle.std.specs.Prelude.{
  ◌≡◌,
  ◌<◌,
  ◌==◌,
  length,
  ℕ,
  [],
  ◌∷◌,
  ◌++◌,
  not,
  true,
  if◌then◌else◌,
  OnOk,
  OnErr,
  IfOk,
  false,
  slice_index,
  vec_len,
};
ghost use Rattle.goods_set.specs.Bundles.{IsRising, has_good};
ghost use Rattle.cats_text.specs.Internal.Marks.{IsMarked};

use std::alloc::{AllocError, Global};
use std::marker::Model;

/// Goods in the order in which they came, none twice. Where they rise, as they mostly do, the next one need only be
/// above the last. Else a good that came is found by its mark, which is that of the bid, and so the marks of an earlier
/// bid need not be taken away.
#[derive(Drop)]
pub struct GoodList {
    goods: Vec<u16>,
    marks: Vec<u32>,
    bid_mark: u32,
    /// Whether the goods rise so far, and are not marked.
    rises: bool,
    /// From this one on a good is above all of them, where they rise; else no good is.
    least: u32,
}

/// Above all goods.
const NO_GOOD: u32 = 65_536;

impl Model for GoodList {
    ghost use Rattle.std.specs.Prelude.{ℕ, List};
    ghost use Rattle.cats_text.specs.Internal.Marks.{IsListed};

    ghost Value = { List ℕ };

    ghost view = { λ s. s.goods.items };

    ghost invariant = { λ s. IsListed s.goods.items s.marks.items s.bid_mark s.rises s.least };
}

/// Lengthens the marks so that there is one at this index.
fn cover(marks: &mut Vec<u32>, index: usize) -> Result<(), AllocError>
    ensures same { (k : ℕ) → slice_index marks.new.items k ≡ slice_index marks.old.items k }
    ensures covered { OnOk result (index < vec_len marks.new) }
{
    while marks.len() <= index {
        marks.push(0)?;
    }
    Ok(())
}

/// Marks rising goods, where none is marked.
fn mark_all(marks: &mut Vec<u32>, goods: &[u16], bid_mark: u32) -> Result<(), AllocError>
    requires rising { IsRising goods.now }
    requires fresh { IsMarked [] marks.old.items bid_mark }
    ensures marked { OnOk result (IsMarked goods.now marks.new.items bid_mark) }
    ensures fresh { OnErr result (IsMarked [] marks.new.items bid_mark) }
{
    let [.., last] = goods else {
        return Ok(());
    };
    cover(marks, usize::from(*last))?;
    for good in goods {
        marks[usize::from(*good)] = bid_mark;
    }
    Ok(())
}

/// Puts a good behind the others and marks it unless it has a mark, and says whether it was new.
fn put_marked(
    goods: &mut Vec<u16>,
    marks: &mut Vec<u32>,
    bid_mark: u32,
    good: u16,
) -> Result<bool, AllocError>
    requires { IsMarked goods.old.items marks.old.items bid_mark }
    ensures new { IfOk result (λ is_new. is_new ≡ not (has_good goods.old.items good)) }
    ensures goods { IfOk result (λ is_new. goods.new.items
        ≡ (if is_new then goods.old.items ++ good ∷ [] else goods.old.items)) }
    ensures same { OnErr result (goods.new.items ≡ goods.old.items) }
    ensures marked { IsMarked goods.new.items marks.new.items bid_mark }
{
    let index = usize::from(good);
    cover(marks, index)?;
    if marks[index] == bid_mark {
        return Ok(false);
    }
    goods.push(good)?;
    marks[index] = bid_mark;
    Ok(true)
}

impl GoodList {
    /// No goods.
    pub fn new(alloc: Global) -> GoodList
        ensures { result ≡ [] }
    {
        GoodList {
            goods: Vec::new(alloc),
            marks: Vec::new(alloc),
            bid_mark: 1,
            rises: true,
            least: 0,
        }
    }

    /// Whether there are none.
    pub fn is_empty(&self) -> bool
        ensures { result ≡ (length self.now == 0) }
    {
        self.goods.is_empty()
    }

    /// Puts a good behind the others where they rise and it is above them, and says whether it did.
    #[inline(always)]
    pub fn put_next(&mut self, good: u16) -> Result<bool, AllocError>
        ensures new { IfOk result (λ is_put. is_put ≡ true → has_good self.old good ≡ false) }
        ensures goods { IfOk result (λ is_put. self.new ≡ (if is_put then self.old ++ good ∷ [] else self.old)) }
    {
        if u32::from(good) < self.least {
            return Ok(false);
        }
        self.goods.push(good)?;
        self.least = u32::from(good) + 1;
        Ok(true)
    }

    /// Puts a good behind the others unless it has come, and says whether it was new.
    pub fn put(&mut self, good: u16) -> Result<bool, AllocError>
        ensures new { IfOk result (λ is_new. is_new ≡ not (has_good self.old good)) }
        ensures goods { IfOk result (λ is_new. self.new ≡ (if is_new then self.old ++ good ∷ [] else self.old)) }
    {
        if self.rises {
            mark_all(&mut self.marks, self.goods.as_slice(), self.bid_mark)?;
            self.rises = false;
            self.least = NO_GOOD;
        }
        put_marked(&mut self.goods, &mut self.marks, self.bid_mark, good)
    }

    /// The goods.
    #[inline(always)]
    pub fn as_slice(&self) -> &[u16]
        ensures { result.now ≡ self.now }
    {
        self.goods.as_slice()
    }

    /// Brings the goods into rising order.
    #[inline(always)]
    pub fn sort(&mut self)
        ensures rising { IsRising self.new }
        ensures same { (g : ℕ) → has_good self.new g ≡ has_good self.old g }
    {
        if !self.rises {
            self.goods.sort_unstable();
        }
    }

    /// Forgets the goods.
    #[inline(always)]
    pub fn clear(&mut self)
        ensures { self.new ≡ [] }
    {
        self.goods.clear();
        self.least = 0;
        if self.rises {
            return;
        }
        self.rises = true;
        if self.bid_mark == u32::MAX {
            self.marks.clear();
            self.bid_mark = 1;
        } else {
            self.bid_mark += 1;
        }
    }
}
