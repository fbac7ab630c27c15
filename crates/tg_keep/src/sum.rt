//! The checksum of a line, which is the CRC-32 of the digits of the line before and of the line's text.
ghost use Rattle.std.specs.Prelude.{◌≡◌, ℕ, ◌<◌, fold, slice_index};
ghost use Rattle.tg_keep.specs.Sums.{with_bits_out, with_byte, digit, digits, sum_after};
ghost use Rattle.tg_keep.specs.Lines.{first_sum};

use crate::table::TABLE;

/// The sum of a line, as its eight digits `0` to `9` and `a` to `f` say it.
#[derive(Clone, Copy, Debug, PartialEq, Eq, Drop)]
pub struct LineSum {
    pub digits: [u8; 8],
}

impl LineSum {
    /// The sum that the first line of a file covers.
    pub fn first() -> LineSum
        ensures { result.digits ≡ first_sum }
    {
        LineSum {
            digits: *b"00000000",
        }
    }
}

/// The sum of a line with this text, after a line that ends with the digits `before`. It is the CRC-32 of the digits
/// and the text, as gzip and zlib compute it.
pub fn sum_after(before: &[u8], text: &[u8]) -> LineSum
    ensures { result.digits ≡ sum_after before.now text.now }
{
    let register = with_bytes(with_bytes(u32::MAX, before), text);
    LineSum {
        digits: digits(!register),
    }
}

fn entry_of(byte: u8) -> u32
    ensures { result ≡ slice_index TABLE byte }
{
    TABLE[byte as usize]
}

// What eight bits make of a register that has no more than them.
fn byte_out(byte: u8) -> u32
    ensures { result ≡ with_bits_out 8 byte }
{
    entry_of(byte)
}

fn with_byte(register: u32, byte: u8) -> u32
    ensures { result ≡ with_byte register byte }
{
    byte_out((register & 255) as u8 ^ byte) ^ (register >> 8)
}

// The register after these bytes too.
fn with_bytes(register: u32, bytes: &[u8]) -> u32
    ensures { result ≡ fold with_byte register bytes.now }
{
    let mut register = register;
    for byte in bytes {
        register = with_byte(register, *byte);
    }
    register
}

fn digit(n: u8) -> u8
    requires { n < 16 }
    ensures { result ≡ digit n }
{
    if n < 10 { b'0' + n } else { b'a' - 10 + n }
}

fn digits(n: u32) -> [u8; 8]
    ensures { result ≡ digits n }
{
    [
        digit((n >> 28 & 15) as u8),
        digit((n >> 24 & 15) as u8),
        digit((n >> 20 & 15) as u8),
        digit((n >> 16 & 15) as u8),
        digit((n >> 12 & 15) as u8),
        digit((n >> 8 & 15) as u8),
        digit((n >> 4 & 15) as u8),
        digit((n & 15) as u8),
    ]
}
