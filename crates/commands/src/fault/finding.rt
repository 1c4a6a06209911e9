//! The hint for a place, by the tables.

ghost use Rattle.std.specs.Prelude.{◌≡◌};
ghost use Rattle.cats_text.specs.Views.{plain_place};
ghost use Rattle.commands.specs.Hints.{first_hint, rows_of};

use super::fitting::fits;
use super::rows::{Hint, HintRow};
use super::tables::{
    BEHIND_END_HINTS, BUNDLE_HINTS, CUT_FILE_HINTS, CUT_LINE_HINTS, HEADER_HINTS, LIMIT_HINTS,
    NUMBER_HINTS,
};
use cats_text::Kind;
use cats_text::fault_place::FaultPlace;

fn rows_of(kind: Kind) -> &'static [HintRow]
    ensures { result.now ≡ rows_of kind }
{
    match kind {
        Kind::Header => &HEADER_HINTS,
        Kind::NotANumber => &NUMBER_HINTS,
        Kind::TooLarge => &LIMIT_HINTS,
        Kind::EmptyBundle => &BUNDLE_HINTS,
        Kind::NoEnd => &CUT_LINE_HINTS,
        Kind::AfterEnd => &BEHIND_END_HINTS,
        Kind::Missing => &CUT_FILE_HINTS,
        _ => &[],
    }
}

/// The hint of the first row for a place that fits.
pub(super) fn find_hint(place: &FaultPlace<'_>) -> Option<Hint>
    ensures { result ≡ first_hint (rows_of place.now.kind) (plain_place place.now) }
{
    let row = rows_of(place.kind).iter().find(|row| fits(row, place))?;
    Some(row.hint)
}
