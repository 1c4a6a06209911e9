//! The loops over two lists of words. They take eight words at a time, and then one by one.
ghost use Rattle.std.specs.Prelude.{◌≡◌, ℕ, ◌*◌, ◌<◌, ◌≤◌, length, get_or};
ghost use Rattle.std.specs.Int.{bit_not, w64};
ghost use Rattle.std.specs.Int.RustNames.{bit_and};
ghost use Rattle.goods_set.specs.Bundles.{is_inside, are_apart, without};
ghost use Rattle.goods_set.specs.Words.{word_goods};

use std::simd::prelude::*;

const LANES: usize = 8;

/// Whether each good of `inner` is in `outer`.
pub(crate) fn all_inside(inner: &[u64], outer: &[u64]) -> bool
    requires { length inner.now ≡ length outer.now }
    ensures { result ≡ is_inside (word_goods (64 * length inner.now) inner.now)
        (word_goods (64 * length inner.now) outer.now) }
{
    let mut i = 0;
    while inner.len() - i >= LANES {
        let outside = u64x8::from_slice(&inner[i..]) & !u64x8::from_slice(&outer[i..]);
        if outside.reduce_or() != 0 {
            return false;
        }
        i += LANES;
    }
    for k in i..inner.len() {
        if inner[k] & !outer[k] != 0 {
            return false;
        }
    }
    true
}

/// Whether no good of `one` is in `other`.
pub(crate) fn all_apart(one: &[u64], other: &[u64]) -> bool
    requires { length one.now ≡ length other.now }
    ensures { result ≡ are_apart (word_goods (64 * length one.now) one.now)
        (word_goods (64 * length one.now) other.now) }
{
    let mut i = 0;
    while one.len() - i >= LANES {
        let shared = u64x8::from_slice(&one[i..]) & u64x8::from_slice(&other[i..]);
        if shared.reduce_or() != 0 {
            return false;
        }
        i += LANES;
    }
    for k in i..one.len() {
        if one[k] & other[k] != 0 {
            return false;
        }
    }
    true
}

/// Takes the goods of `taken` out of `words`.
pub(crate) fn remove_all(words: &mut [u64], taken: &[u64])
    requires { length words.old ≡ length taken.now }
    ensures goods { (cap : ℕ) → cap ≤ 64 * length words.old → word_goods cap words.new
        ≡ without (word_goods cap words.old) (word_goods cap taken.now) }
    ensures words { (k : ℕ) → k < length words.old
        → get_or words.new k 0 ≡ bit_and (get_or words.old k 0) (bit_not w64 (get_or taken.now k 0)) }
{
    let mut i = 0;
    while words.len() - i >= LANES {
        let left = u64x8::from_slice(&words[i..]) & !u64x8::from_slice(&taken[i..]);
        left.copy_to_slice(&mut words[i..]);
        i += LANES;
    }
    for k in i..words.len() {
        words[k] &= !taken[k];
    }
}

/// Takes the goods of `taken` out of `words`, of which there may be more or fewer.
pub(crate) fn remove_shared(words: &mut [u64], taken: &[u64])
    ensures { word_goods (64 * length words.new) words.new
        ≡ without (word_goods (64 * length words.old) words.old) (word_goods (64 * length taken.now) taken.now) }
{
    let shared = words.len().min(taken.len());
    remove_all(&mut words[..shared], &taken[..shared]);
}
