//! The loops over single words. They find how many goods the words hold, the next good, all
//! goods, and which of two sets comes first.
ghost use Rattle.std.specs.Prelude.{◌≡◌, ◌+◌, ◌*◌, ◌^◌, ◌≤◌, [], ◌∷◌, ◌++◌, map, length, OnOk};
ghost use Rattle.std.specs.Ordering.{nat_cmp};
ghost use Rattle.std.specs.Cmp.Lexicographic.{slice_cmp};
ghost use Rattle.goods_set.specs.Bundles.{good_from};
ghost use Rattle.goods_set.specs.declared.word_set.TheConstants.{MAX_WORDS};
ghost use Rattle.goods_set.specs.Words.{word_goods};

use std::alloc::AllocError;
use std::cmp::Ordering;

/// How many goods the words hold.
pub(crate) fn count_goods(words: &[u64]) -> usize
    requires { length words.now ≤ MAX_WORDS }
    ensures { result ≡ length (word_goods (64 * length words.now) words.now) }
{
    let mut count = 0;
    for word in words {
        count += word.count_ones() as usize;
    }
    count
}

/// The least good that is at least `from`.
pub(crate) fn next_good(words: &[u64], from: u32) -> Option<u16>
    requires { length words.now ≤ MAX_WORDS }
    ensures { result ≡ good_from (word_goods (64 * length words.now) words.now) from }
{
    let good = next_bit(words, from as usize)?;
    Some(good as u16)
}

/// The least index that is at least `from` of a bit that is set, of any number of words.
#[inline]
pub(crate) fn next_bit(words: &[u64], from: usize) -> Option<usize>
    requires { 64 * length words.now ≤ 2 ^ 64 }
    ensures { result ≡ good_from (word_goods (64 * length words.now) words.now) from }
{
    let mut index = from / 64;
    if index >= words.len() {
        return None;
    }
    // The bits of the first word that are below `from` are left out.
    let mut rest = words[index] & (u64::MAX << (from % 64));
    while rest == 0 {
        index += 1;
        if index >= words.len() {
            return None;
        }
        rest = words[index];
    }
    Some(64 * index + rest.trailing_zeros() as usize)
}

/// Appends the goods that the words hold, rising.
pub(crate) fn list_goods(words: &[u64], out: &mut Vec<u16>) -> Result<(), AllocError>
    requires { length words.now ≤ MAX_WORDS }
    ensures { OnOk result (out.new.items ≡ out.old.items ++ word_goods (64 * length words.now) words.now) }
{
    for k in 0..words.len() {
        list_bits(words[k], 64 * k as u16, out)?;
    }
    Ok(())
}

/// Appends the indices of the bits that are set in a word, counted from `first`.
fn list_bits(word: u64, first: u16, out: &mut Vec<u16>) -> Result<(), AllocError>
    requires { first ≤ 65472 }
    ensures { OnOk result (out.new.items ≡ out.old.items ++ map (λ index. first + index) (word_goods 64 (word ∷ []))) }
{
    let mut rest = word;
    while rest != 0 {
        let index = rest.trailing_zeros();
        out.push(first + index as u16)?;
        rest &= rest - 1;
    }
    Ok(())
}

/// The lexicographic order of two bundles of one size: the one with the least good that they do not
/// share comes first.
pub(crate) fn order_of_one_size(a: &[u64], b: &[u64]) -> Ordering
    requires same_words { length a.now ≡ length b.now }
    requires same_size { length (word_goods (64 * length a.now) a.now)
        ≡ length (word_goods (64 * length a.now) b.now) }
    ensures { result ≡ slice_cmp nat_cmp (word_goods (64 * length a.now) a.now)
        (word_goods (64 * length a.now) b.now) }
{
    for k in 0..a.len() {
        let unshared = a[k] ^ b[k];
        if unshared != 0 {
            let first = unshared.trailing_zeros();
            return if (a[k] >> first) & 1 == 1 {
                Ordering::Less
            } else {
                Ordering::Greater
            };
        }
    }
    Ordering::Equal
}
