//! Why a text names no boxes.

use tg_text::MOST_BOXES;
use thiserror::Error;

/// Why a text names no boxes. Characters are counted from 1.
#[derive(Clone, Copy, Debug, Error)]
pub enum StockReason {
    /// The character neither names a kind of box nor goes on with a number.
    #[error("character {at} of --stock is none of c, s, m and l")]
    NoKind { at: u64 },
    /// The number after a letter begins with 0, or is over 100,000.
    #[error("the number at character {at} of --stock begins with 0 or is over 100000")]
    BadCount { at: u64 },
    /// There are over 100,000 boxes.
    #[error("--stock names over 100000 boxes")]
    TooMany,
}

/// Why a text names no boxes, if `read_stock` of `tg_text` has found that it names none.
pub fn stock_reason(text: &str) -> StockReason {
    let mut letter: u64 = 0;
    let mut count: u64 = 0;
    for (index, byte) in text.as_bytes().iter().enumerate() {
        let at = (index as u64).saturating_add(1);
        match byte {
            b'c' | b's' | b'm' | b'l' => (letter, count) = (at, 0),
            b'0'..=b'9' if letter > 0 => count = with_digit(count, *byte),
            _ => return StockReason::NoKind { at },
        }
        if letter < at && (count == 0 || count > MOST_BOXES) {
            let at = letter.saturating_add(1);
            return StockReason::BadCount { at };
        }
    }
    StockReason::TooMany
}

// The number that another digit makes of this one.
fn with_digit(number: u64, digit: u8) -> u64 {
    let value = u64::from(digit.saturating_sub(b'0'));
    number.saturating_mul(10).saturating_add(value)
}
