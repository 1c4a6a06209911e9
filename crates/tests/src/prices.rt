//! Tests of `rounding`, on known rounded prices.

mod texts;
mod words;

use rounding::replacement::{FinePrices, PriceRule};

/// Fine prices are rounded, or refused, and none is multiplied.
const ROUNDED: PriceRule = PriceRule {
    fine: FinePrices::Round,
    tens: 0,
};

const REFUSED: PriceRule = PriceRule {
    fine: FinePrices::Refuse,
    tens: 0,
};

fn multiplied(fine: FinePrices, tens: u8) -> PriceRule {
    PriceRule { fine, tens }
}
