// Bytes as text: two digits a byte, 0 to 9 and a to f.
use crate::failures::Failure;
use std::alloc::Global;
use std::fmt;

// Bytes that are written as digits.
#[derive(Clone, Copy)]
pub struct Hex<'a>(pub &'a [u8]);

impl fmt::Display for Hex<'_> {
    fn fmt<W: fmt::Write>(&self, f: &mut fmt::Formatter<W>) -> fmt::Result {
        for byte in self.0 {
            write!(f, "{byte:02x}")?;
        }
        Ok(())
    }
}

fn digit_of(digit: u8) -> Option<u8> {
    match digit {
        b'0'..=b'9' => Some(digit - b'0'),
        b'a'..=b'f' => Some(digit - b'a' + 10),
        _ => None,
    }
}

// The byte of two digits.
fn byte_of(digits: &[u8]) -> Option<u8> {
    match digits {
        [high, low] => Some(digit_of(*high)? << 4 | digit_of(*low)?),
        _ => None,
    }
}

// The bytes that digits are, unless one is none or the last stands alone.
pub fn bytes_of(heap: Global, digits: &str) -> Result<Vec<u8>, Failure> {
    let mut bytes = Vec::new(heap);
    for pair in digits.as_bytes().chunks(2) {
        bytes.push(byte_of(pair).ok_or(Failure::NoCommand)?)?;
    }
    Ok(bytes)
}
