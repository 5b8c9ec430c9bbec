// Bytes in hexadecimal, two lower-case digits a byte.
ghost use Rattle.std.specs.Prelude.{◌≡◌, ◌*◌, ◌<◌, ◌≤◌, length, IfSome, IfOk, vec_len};

use crate::error::RowError;
use std::alloc::Global;
use std::fmt;

// The value of a digit.
pub fn digit(c: u8) -> Option<u8>
    ensures { IfSome result (λ x. x < 16) }
{
    match c {
        b'0'..=b'9' => Some(c - b'0'),
        b'a'..=b'f' => Some(c - b'a' + 10),
        _ => None,
    }
}

// The byte of two digits.
fn byte(high: u8, low: u8) -> Option<u8> {
    Some(digit(high)? << 4 | digit(low)?)
}

// The bytes of a text, at most so many.
pub fn bytes(alloc: Global, text: &str, most: usize) -> Result<Vec<u8>, RowError>
    ensures pairs { IfOk result (λ bytes. length text.now ≡ 2 * vec_len bytes) }
    ensures most { IfOk result (λ bytes. vec_len bytes ≤ most) }
{
    let (pairs, rest) = text.as_bytes().as_chunks::<2>();
    if !rest.is_empty() || pairs.len() > most {
        return Err(RowError::Bad);
    }
    let mut bytes = Vec::with_capacity(alloc, pairs.len())?;
    for [high, low] in pairs {
        bytes.push(byte(*high, *low).ok_or(RowError::Bad)?)?;
    }
    Ok(bytes)
}

// Prints bytes, `-` where there are none.
#[derive(Clone, Copy)]
pub struct Hex<'a>(pub &'a [u8]);

impl fmt::Display for Hex<'_> {
    fn fmt<W: fmt::Write>(&self, f: &mut fmt::Formatter<W>) -> fmt::Result {
        if self.0.is_empty() {
            return f.write_str("-");
        }
        for byte in self.0 {
            write!(f, "{byte:02x}")?;
        }
        Ok(())
    }
}
