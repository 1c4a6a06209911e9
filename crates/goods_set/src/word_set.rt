//! A set of goods as the bits of words.
mod as_mask;
pub(crate) mod lanes;
pub(crate) mod scans;

ghost use Rattle.std.specs.Prelude.{◌≡◌, ◌*◌, ◌<◌, min, [], not, length, IsOk, IfOk, OnErr};
ghost use Rattle.goods_set.specs.Bundles.{IsRising, AreBelow, has_good, with_good};
ghost use Rattle.goods_set.specs.declared.word_set.TheConstants.{MAX_WORDS};
ghost use Rattle.goods_set.specs.Words.{word_goods, word_cap};
ghost use Rattle.goods_set.specs.Lemmas.Words.{word_goods_bundle, word_cap_fits};

use crate::set::GoodsSet;
use std::alloc::{AllocError, Global};
use std::cmp::Ordering;

/// A set of goods below the lesser of 64 times `N` and 65,536: a good is in it where its bit of the
/// words is set. None of its calls takes memory, but for the vector of `list_into`.
#[derive(Debug, Drop)]
pub struct WordSet<const N: usize> {
    words: [u64; N],
}

// Goods are below 65,536, so that further words hold none.
const MAX_WORDS: usize = 1024;

impl<const N: usize> WordSet<N> {
    // The words that may hold goods.
    fn used(&self) -> &[u64]
        ensures words { length result.now ≡ min N MAX_WORDS }
        ensures goods { word_goods (64 * length result.now) result.now ≡ word_goods (word_cap N) self.now.words }
    {
        &self.words[..N.min(MAX_WORDS)]
    }
}

impl<const N: usize> GoodsSet for WordSet<N> {
    ghost use Rattle.goods_set.specs.Sets.{set_goods};

    ghost CAP = { word_cap N };

    ghost goods = { set_goods };

    fn cap() -> u32 {
        if N < MAX_WORDS { 64 * N as u32 } else { 65_536 }
    }

    fn empty(_alloc: Global) -> Result<WordSet<N>, AllocError>
        ensures goods { IfOk result (λ s. set_goods s ≡ []) }
        ensures ok { IsOk result }
    {
        Ok(WordSet { words: [0; N] })
    }

    fn from_slice(_alloc: Global, rising: &[u16]) -> Result<WordSet<N>, AllocError>
        requires rising { IsRising rising.now }
        requires below { AreBelow (word_cap N) rising.now }
        ensures goods { IfOk result (λ s. set_goods s ≡ rising.now) }
        ensures ok { IsOk result }
    {
        let mut set = WordSet { words: [0; N] };
        for good in rising {
            let index = usize::from(*good / 64);
            set.words[index] |= 1u64 << (*good % 64);
        }
        Ok(set)
    }

    fn put(&mut self, good: u16) -> Result<bool, AllocError>
        requires { good < word_cap N }
        ensures added { IfOk result (λ new. new ≡ not (has_good (set_goods self.old) good)) }
        ensures goods { IfOk result (λ _. set_goods self.new ≡ with_good good (set_goods self.old)) }
        ensures refused { OnErr result (set_goods self.new ≡ set_goods self.old) }
        ensures ok { IsOk result }
    {
        let index = usize::from(good / 64);
        let bit = 1u64 << (good % 64);
        let new = self.words[index] & bit == 0;
        self.words[index] |= bit;
        Ok(new)
    }

    fn has(&self, good: u16) -> bool {
        let index = usize::from(good / 64);
        index < N && (self.words[index] >> (good % 64)) & 1 == 1
    }

    fn size(&self) -> usize {
        scans::count_goods(self.used())
    }

    fn next_from(&self, from: u32) -> Option<u16> {
        scans::next_good(self.used(), from)
    }

    fn list_into(&self, out: &mut Vec<u16>) -> Result<(), AllocError> {
        scans::list_goods(self.used(), out)
    }

    fn as_slice(&self) -> Option<&[u16]> {
        None
    }

    fn is_inside(&self, other: &WordSet<N>) -> bool {
        lanes::all_inside(self.used(), other.used())
    }

    fn is_apart(&self, other: &WordSet<N>) -> bool {
        lanes::all_apart(self.used(), other.used())
    }

    fn take_out(&mut self, other: &WordSet<N>) {
        lanes::remove_all(&mut self.words, &other.words);
    }

    fn order(&self, other: &WordSet<N>) -> Ordering {
        match self.size().cmp(&other.size()) {
            Ordering::Equal => scans::order_of_one_size(self.used(), other.used()),
            unequal => unequal,
        }
    }

    fn copy(&self) -> Result<WordSet<N>, AllocError>
        ensures goods { IfOk result (λ s. set_goods s ≡ set_goods self.now) }
        ensures ok { IsOk result }
    {
        Ok(WordSet { words: self.words })
    }

    ghost is_bundle = { λ s. word_goods_bundle (word_cap N) s.words };

    ghost cap_fits = { word_cap_fits N };
}
