//! Fingerprints of bundles. Most bundles that are not inside another are rejected without reading their goods.
ghost use Rattle.std.specs.Prelude.{◌≡◌, ℕ, true, List};
ghost use Rattle.goods_set.specs.Bundles.{IsInside};
ghost use Rattle.prune.specs.Internal.Fingerprints.{AreMarks, mark_of};

/// A multiplier that spreads goods near one another, and those at equal distances.
const MIXER: u16 = 40_503;

/// The bit that a good marks.
fn mark_of(good: u16) -> u32
    ensures { result ≡ mark_of good }
{
    let mixed = good.wrapping_mul(MIXER);
    let group = (mixed / 16) % 64;
    let spread = u32::from(mixed / 1024);
    if group == 0 {
        96 + spread % 32
    } else if group < 8 {
        64 + spread % 32
    } else {
        spread
    }
}

/// The fingerprint of a bundle with these goods: each marks one of 128 bits.
pub fn fingerprint(goods: &[u16]) -> u128
    ensures { AreMarks goods.now result }
{
    let mut marks = 0u128;
    for good in goods {
        marks |= 1u128 << mark_of(*good);
    }
    marks
}

/// Whether a bundle may be inside another, by the fingerprints of both: it is not where a mark is missing in the other's.
pub fn may_be_subset(marks: u128, others: u128) -> bool
    ensures { (goods other : List ℕ) → AreMarks goods marks → AreMarks other others → IsInside goods other
        → result ≡ true }
{
    marks & !others == 0
}
