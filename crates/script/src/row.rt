//! Printing what a call did.
ghost use Rattle.std.specs.Prelude.{◌≡◌, [], ◌∷◌, ◌++◌, OnOk, string_bytes};
ghost use Rattle.exchange.specs.Views.{says_seen};
ghost use Rattle.script.specs.Rows.{row_names, says_text, row_text, row_shown, result_text, shown_text};

use exchange::Says;
use std::alloc::AllocError;
use text::{Hex, push_bytes, push_field, push_line, push_number_field};

/// What a call did: its word and result, the frame that it wrote, the answer that it ended with, and what the reader says.
#[derive(Clone, Copy, Debug, PartialEq, Eq)]
pub struct Row<'a> {
    pub word: &'a str,
    pub result: usize,
    pub frame: &'a [u8],
    pub answer: &'a [u8],
    pub says: Says,
}

/// Appends the header.
pub fn write_names(out: &mut String) -> Result<(), AllocError>
    ensures { OnOk result (string_bytes out.new ≡ string_bytes out.old ++ (row_names ++ 10 ∷ [])) }
{
    writeln!(out, "call result frame answer says")
}

/// What the reader says of its command.
pub fn says_word(says: Says) -> &'static str
    ensures { result.now ≡ says_text (says_seen says) }
{
    match says {
        Says::Nothing => "none",
        Says::Done => "done",
        Says::Taken => "taken",
        Says::NotTaken => "nottaken",
        Says::Doubt => "doubt",
    }
}

/// Appends a call's row, a line.
pub fn write_row(out: &mut String, row: Row<'_>) -> Result<(), AllocError>
    ensures { OnOk result (string_bytes out.new ≡ string_bytes out.old ++ row_shown row.entry) }
{
    writeln!(
        out,
        "{} {} {} {} {}",
        row.word,
        row.result,
        Hex(row.frame),
        Hex(row.answer),
        says_word(row.says)
    )
}

/// Appends the header to bytes.
pub fn push_names(out: &mut Vec<u8>) -> Result<(), AllocError>
    ensures { OnOk result (out.new.items ≡ out.old.items ++ (row_names ++ 10 ∷ [])) }
{
    push_line(out, b"call result frame answer says")
}

/// Appends a call's word, any bytes, and its result.
fn push_result(out: &mut Vec<u8>, word: &[u8], res: usize) -> Result<(), AllocError>
    ensures { OnOk result (out.new.items ≡ out.old.items ++ result_text word.now res) }
{
    push_field(out, word)?;
    push_number_field(out, res)
}

/// Appends the frame that a call wrote, the answer that it ended with, and what the reader says.
fn push_shown(out: &mut Vec<u8>, frame: &[u8], answer: &[u8], says: Says) -> Result<(), AllocError>
    ensures { OnOk result (out.new.items ≡ out.old.items ++ shown_text frame.now answer.now (says_seen says)) }
{
    push_bytes(out, frame)?;
    out.push(b' ')?;
    push_bytes(out, answer)?;
    out.push(b' ')?;
    out.extend_from_slice(says_word(says).as_bytes())?;
    out.push(b'\n')?;
    Ok(())
}

/// Appends the row of a call to bytes; its word is any bytes.
pub fn push_row(
    out: &mut Vec<u8>,
    word: &[u8],
    res: usize,
    frame: &[u8],
    answer: &[u8],
    says: Says,
) -> Result<(), AllocError>
    ensures { OnOk result (out.new.items ≡ out.old.items ++ row_text word.now res frame.now answer.now (says_seen says)) }
{
    push_result(out, word, res)?;
    push_shown(out, frame, answer, says)
}
