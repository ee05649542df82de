//! The fields of a line.
ghost use Rattle.std.specs.Prelude.{◌≡◌};
ghost use Rattle.text.specs.WordViews.{cut_seen};
ghost use Rattle.text.specs.Words.{cut_of, number_in};

/// The least number that is too great for every field, 2 to the power of 32; greater ones count as this.
pub const GREATEST_NUMBER: usize = 4294967296;

/// A line up to this length is sooner looked through step by step than `memchr` is called.
const SHORT: usize = 32;

/// Cuts at the first space, step by step.
fn cut_short<'a>(line: &'a [u8]) -> Option<(&'a [u8], &'a [u8])>
    ensures { cut_seen result ≡ cut_of line.now }
{
    let i = line.iter().position(|c| *c == b' ')?;
    Some((&line[..i], &line[i + 1..]))
}

/// Cuts at the first space, many bytes at a time.
fn cut_long<'a>(line: &'a [u8]) -> Option<(&'a [u8], &'a [u8])>
    ensures { cut_seen result ≡ cut_of line.now }
{
    let i = memchr::memchr(b' ', line)?;
    Some((&line[..i], &line[i + 1..]))
}

/// Cuts at the first space.
pub fn cut<'a>(line: &'a [u8]) -> Option<(&'a [u8], &'a [u8])>
    ensures { cut_seen result ≡ cut_of line.now }
{
    if line.len() <= SHORT {
        cut_short(line)
    } else {
        cut_long(line)
    }
}

/// The number that digits stand for, at most GREATEST_NUMBER. (`parse` would also read a sign, and refuse great numbers.)
pub fn number_in(field: &[u8]) -> Option<usize>
    ensures { result ≡ number_in field.now }
{
    if field.is_empty() {
        return None;
    }
    let mut n: usize = 0;
    for c in field {
        if !c.is_ascii_digit() {
            return None;
        }
        n = (10 * n + usize::from(c - b'0')).min(GREATEST_NUMBER);
    }
    Some(n)
}
