//! Bytes as text: two hexadecimal digits a byte, and `-` for no bytes.
ghost use Rattle.std.specs.Prelude.{◌≡◌, ◌*◌, ◌<◌, ◌≤◌, [], ◌∷◌, IfSome, length, Some, take, vec_items, IsUtf8};
ghost use Rattle.text.specs.Hex.{digit_of, byte_of, unhex, bytes_in, upper, hex, shown_bytes};
ghost use Rattle.text.specs.Reads.{Reads};

use super::error::ReadError;
use std::alloc::Global;
use std::fmt;

/// The value of a digit, in either case.
fn digit(c: u8) -> Option<u8>
    ensures value { result ≡ digit_of c }
    ensures bound { IfSome result (λ v. v < 16) }
{
    match c {
        b'0'..=b'9' => Some(c - b'0'),
        b'A'..=b'F' => Some(c - b'A' + 10),
        b'a'..=b'f' => Some(c - b'a' + 10),
        _ => None,
    }
}

/// The byte of two digits.
pub fn byte(high: u8, low: u8) -> Option<u8>
    ensures { result ≡ byte_of high low }
{
    Some(16 * digit(high)? + digit(low)?)
}

/// The bytes that digits stand for. (Never inlined, so that `bytes_in` is, and a dash costs no call.)
#[inline(never)]
fn bytes_of_digits(alloc: Global, digits: &[u8]) -> Result<Vec<u8>, ReadError>
    ensures { Reads vec_items (unhex digits.now) result }
{
    let (pairs, []) = digits.as_chunks::<2>() else {
        return Err(ReadError::Unreadable);
    };
    // memory is asked for as bytes are read: a field that cannot be read needs none for what stands behind the place
    let mut bytes = Vec::new(alloc);
    for [high, low] in pairs {
        bytes.push(byte(*high, *low).ok_or(ReadError::Unreadable)?)?;
    }
    Ok(bytes)
}

/// The bytes that a field stands for.
#[inline]
pub fn bytes_in(alloc: Global, field: &[u8]) -> Result<Vec<u8>, ReadError>
    ensures { Reads vec_items (bytes_in field.now) result }
{
    match field {
        [] => Err(ReadError::Unreadable),
        b"-" => Ok(Vec::new(alloc)),
        _ => bytes_of_digits(alloc, field),
    }
}

/// The digit of a value below 16, in upper case.
pub(super) fn upper_digit(n: u8) -> u8
    requires { n < 16 }
    ensures { result ≡ upper n }
{
    if n < 10 { b'0' + n } else { b'A' + (n - 10) }
}

/// The digits of at most 32 bytes.
fn digits_of<'a>(bytes: &[u8], digits: &'a mut [u8; 64]) -> &'a str
    requires { length bytes.now ≤ 32 }
    ensures { result.now ≡ hex bytes.now }
{
    for (i, b) in bytes.iter().enumerate() {
        digits[2 * i] = upper_digit(b / 16);
        digits[2 * i + 1] = upper_digit(b % 16);
    }
    str::from_utf8(&digits[..2 * bytes.len()]).unwrap()
}

/// The digit of a value below 16, as text.
fn digit_text(n: u8) -> &'static str
    requires { n < 16 }
    ensures { result.now ≡ upper n ∷ [] }
{
    match n {
        0 => "0",
        1 => "1",
        2 => "2",
        3 => "3",
        4 => "4",
        5 => "5",
        6 => "6",
        7 => "7",
        8 => "8",
        9 => "9",
        10 => "A",
        11 => "B",
        12 => "C",
        13 => "D",
        14 => "E",
        _ => "F",
    }
}

/// Bytes, as they are printed: two digits in upper case for each, and `-` for none.
#[derive(Clone, Copy)]
pub struct Hex<'a>(pub &'a [u8]);

impl<'a> fmt::Display for Hex<'a> {
    ghost output = { λ h. Some (shown_bytes h.0.now) };

    fn fmt<W: fmt::Write>(&self, f: &mut fmt::Formatter<W>) -> fmt::Result {
        match self.0 {
            [] => f.write_str("-"),
            // one byte, as TA and TC of an ATS, without a buffer
            [b] => {
                f.write_str(digit_text(b / 16))?;
                f.write_str(digit_text(b % 16))
            }
            bytes => {
                // 32 bytes at a time: with `{b:02X}` for each byte, `inspect` takes 3.4 times as many instructions on frames of 200 bytes
                for part in bytes.chunks(32) {
                    f.write_str(digits_of(part, &mut [0; 64]))?;
                }
                Ok(())
            }
        }
    }
}
