//! The lines of the table.
ghost use Rattle.std.specs.Prelude.{◌≡◌, Some};
ghost use Rattle.std.specs.Fmt.{WritesOnOk};
ghost use Rattle.sweeping.specs.Texts.{letter_of, letters_text, word_text, card_text, line_text};

use super::plan::Loss;
use super::row::Row;
use super::run::Run;
use super::told::Times;
use script::says_word;
use std::fmt;

/// A line of the table.
#[derive(Clone, Copy, Debug, PartialEq, Eq)]
pub enum Line {
    /// the header
    Names,
    /// where the losses were, which they were, and how the run ended
    Ended { run: Run, row: Row },
    /// the last line
    Sum { runs: usize, disagreements: usize },
}

fn letter(loss: Loss) -> char
    ensures { result ≡ letter_of loss }
{
    match loss {
        Loss::Whole => '-',
        Loss::Lost => 'l',
        Loss::Spoilt => 's',
        Loss::Muted => 'm',
        Loss::Noisy => 'n',
    }
}

/// Writes a letter for each of `count` digits, the lowest first. (It goes down the digits as the definition does; as a loop it would need an
/// invariant that says no more.)
fn write_letters<W: fmt::Write>(f: &mut fmt::Formatter<W>, count: usize, code: usize) -> fmt::Result
    ensures { WritesOnOk W.write_str_gives f.old result (letters_text count code) f.new }
{
    if count == 0 {
        return Ok(());
    }
    write!(f, "{}", letter(Loss::of(code % 4)))?;
    write_letters(f, count - 1, code / 4)
}

/// A letter for each loss of a run; a dash where there is none.
#[derive(Clone, Copy)]
struct Word(Run);

impl fmt::Display for Word {
    ghost output = { λ w. Some (word_text w.0.count w.0.code) };

    fn fmt<W: fmt::Write>(&self, f: &mut fmt::Formatter<W>) -> fmt::Result {
        if self.0.count == 0 {
            return write!(f, "-");
        }
        write_letters(f, self.0.count, self.0.code)
    }
}

fn card_word(times: Times) -> &'static str
    ensures { result.now ≡ card_text times }
{
    match times {
        Times::Never => "nottaken",
        Times::Once | Times::Oftener => "taken",
    }
}

impl fmt::Display for Line {
    ghost output = { λ line. Some (line_text line) };

    fn fmt<W: fmt::Write>(&self, f: &mut fmt::Formatter<W>) -> fmt::Result {
        match self {
            Line::Names => writeln!(f, "turn losses result frames says card"),
            Line::Ended { run, row } => writeln!(
                f,
                "{} {} {} {} {} {}",
                run.first,
                Word(*run),
                row.result,
                row.frames,
                says_word(row.says),
                card_word(row.times)
            ),
            Line::Sum {
                runs,
                disagreements,
            } => writeln!(f, "runs {runs} disagreements {disagreements}"),
        }
    }
}
