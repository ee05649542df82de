//! Lines of a text.
ghost use Rattle.std.specs.Prelude.{◌≡◌, ◌^◌, ◌<◌, length, Some};
ghost use Rattle.text.specs.Lines.{lines_of, bad_text};

use std::fmt;

/// The lines of a text, each without its line break.
#[derive(Clone, Copy)]
pub struct Lines<'a> {
    rest: &'a [u8],
    ghost countable: { length (lines_of rest.now) < 2 ^ 64 },
}

impl<'a> Lines<'a> {
    ghost use Rattle.text.specs.LineViews.{lines_left};

    pub fn new(text: &'a [u8]) -> Self
        ensures { lines_left result ≡ lines_of text.now }
    {
        Lines { rest: text }
    }
}

impl<'a> Iterator for Lines<'a> {
    ghost use Rattle.std.specs.Iterator.{YieldsFirstRef, item_count};
    ghost use Rattle.text.specs.LineViews.{lines_left};

    type Item = &'a [u8];

    ghost next_gives = { YieldsFirstRef lines_left };

    ghost remaining = { item_count lines_left };

    fn next(&mut self) -> Option<&'a [u8]> {
        if self.rest.is_empty() {
            return None;
        }
        let end = memchr::memchr(b'\n', self.rest).unwrap_or(self.rest.len());
        let line = &self.rest[..end];
        self.rest = self.rest.get(end + 1..).unwrap_or(&[]);
        Some(line)
    }
}

/// What is printed for a line that cannot be read.
#[derive(Clone, Copy)]
pub struct BadLine(pub usize);

impl fmt::Display for BadLine {
    ghost output = { λ n. Some (bad_text n.0) };

    fn fmt<W: fmt::Write>(&self, f: &mut fmt::Formatter<W>) -> fmt::Result {
        writeln!(f, "bad line {}", self.0)
    }
}
