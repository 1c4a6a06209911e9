//! A mask of any length.
ghost use Rattle.std.specs.Prelude.{◌≡◌, ◌*◌, ◌^◌, ◌<◌, ◌≤◌, length, OnOk};
ghost use Rattle.goods_set.specs.Words.{word_goods};
ghost use Rattle.goods_set.specs.Lemmas.Words.{word_goods_rise};

use crate::mask::Mask;
use crate::word_set::{lanes, scans};
use std::alloc::{AllocError, Global};

/// A set of indices as the bits of words, which are as many as the greatest index that was put needs.
#[derive(Debug, Drop)]
pub struct LongMask {
    words: Vec<u64>,
    // Each index is a `usize`.
    ghost fits: { 64 * length words.items ≤ 2 ^ 64 },
}

impl LongMask {
    ghost use Rattle.goods_set.specs.Sets.{mask_indices};

    // Appends words with no index, until this one is there.
    fn reach(&mut self, word: usize) -> Result<(), AllocError>
        requires { 64 * word < 2 ^ 64 }
        ensures long { OnOk result (word < length self.new.words.items) }
        ensures same { OnOk result (mask_indices self.new ≡ mask_indices self.old) }
    {
        if word >= self.words.len() {
            self.words.resize(word + 1, 0)?;
        }
        Ok(())
    }
}

impl Mask for LongMask {
    ghost use Rattle.goods_set.specs.Sets.{mask_indices};

    ghost CAP = { 2 ^ 64 };

    ghost indices = { mask_indices };

    fn empty(alloc: Global) -> Result<LongMask, AllocError> {
        Ok(LongMask {
            words: Vec::new(alloc),
        })
    }

    fn put(&mut self, index: usize) -> Result<(), AllocError> {
        let word = index / 64;
        self.reach(word)?;
        self.words[word] |= 1u64 << (index % 64);
        Ok(())
    }

    fn next_from(&self, from: usize) -> Option<usize> {
        scans::next_bit(&self.words, from)
    }

    fn take_out(&mut self, other: &LongMask) {
        lanes::remove_shared(self.words.as_mut_slice(), &other.words);
    }

    fn copy(&self) -> Result<LongMask, AllocError> {
        Ok(LongMask {
            words: self.words.clone()?,
        })
    }

    ghost is_rising = { λ mask. word_goods_rise (64 * length mask.words.items) mask.words.items };
}
