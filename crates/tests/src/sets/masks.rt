//! Masks of both kinds, on worked examples. Each call is made with ample memory, so
//! that it has to succeed.
ghost use Rattle.std.specs.Prelude.{◌≤◌};

use goods_set::WordSet;
use goods_set::mask::{LongMask, Mask};
use std::alloc::Global;
use std::process::Abort;
use std::test::Fail;

// The mask of these indices, put as they come.
fn mask_of<M: Mask>(rt: &impl Abort, alloc: Global, indices: &[usize]) -> Result<M, Fail>
    requires { 1024 ≤ M.CAP }
{
    let mut mask = M::empty(alloc)?;
    for index in indices {
        assert!(rt; *index < 1_024);
        mask.put(*index)?;
    }
    Ok(mask)
}

// The mask has these indices, which rise, and no others.
fn expect_indices<M: Mask>(rt: &impl Abort, mask: &M, expected: &[usize]) {
    let mut from = 0;
    for index in expected {
        assert_eq!(rt; mask.next_from(from), Some(*index));
        from = index.saturating_add(1);
    }
    assert_eq!(rt; mask.next_from(from), None);
}

// Indices as they are put, those that are taken out, and those that are left.
type Row = (&'static [usize], &'static [usize], &'static [usize]);

static ROWS: [Row; 7] = [
    (&[], &[], &[]),
    (&[], &[9], &[]),
    (&[5, 3, 5], &[], &[3, 5]),
    (&[63, 64], &[64], &[63]),
    (&[3, 5], &[3, 5], &[]),
    (&[700, 3], &[3], &[700]),
    (&[70, 3], &[3, 1_023], &[70]),
];

fn take_rows_out<M: Mask>(rt: &impl Abort, alloc: Global) -> Result<(), Fail>
    requires { 1024 ≤ M.CAP }
{
    for (put, taken, left) in &ROWS {
        let mut mask = mask_of::<M>(rt, alloc, put)?;
        let before = mask.copy()?;
        mask.take_out(&mask_of::<M>(rt, alloc, taken)?);
        expect_indices(rt, &mask, left);
        expect_indices(rt, &mask.copy()?, left);
        mask.take_out(&before);
        expect_indices(rt, &mask, &[]);
    }
    Ok(())
}

#[test]
fn words_are_masks(rt: HostRuntime) -> Result<(), Fail> {
    take_rows_out::<WordSet<16>>(&rt, rt.alloc())
}

#[test]
fn long_masks(rt: HostRuntime) -> Result<(), Fail> {
    take_rows_out::<LongMask>(&rt, rt.alloc())
}

#[test]
fn last_indices(rt: HostRuntime) -> Result<(), Fail> {
    let alloc = rt.alloc();
    let mut one_word: WordSet<1> = Mask::empty(alloc)?;
    Mask::put(&mut one_word, 63)?;
    expect_indices(&rt, &one_word, &[63]);
    let mut most_words: WordSet<2000> = Mask::empty(alloc)?;
    Mask::put(&mut most_words, 65_535)?;
    expect_indices(&rt, &most_words, &[65_535]);
    let mut long = LongMask::empty(alloc)?;
    long.put(100_000)?;
    expect_indices(&rt, &long, &[100_000]);
    assert_eq!(rt; Mask::next_from(&one_word, 1 << 32), None);
    assert_eq!(rt; long.next_from(usize::MAX), None);
    Ok(())
}
