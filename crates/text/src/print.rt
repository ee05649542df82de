//! Fields, numbers and lines, appended to bytes.
ghost use Rattle.std.specs.Prelude.{◌≡◌, [], ◌∷◌, ◌++◌, decimal, OnOk};
ghost use Rattle.text.specs.Hex.{hex, shown_bytes};
ghost use Rattle.text.specs.Lines.{bad_text};

use super::hex::upper_digit;
use std::alloc::AllocError;

/// Appends a number.
pub fn push_number(out: &mut Vec<u8>, n: usize) -> Result<(), AllocError>
    ensures { OnOk result (out.new.items ≡ out.old.items ++ decimal n) }
{
    if n >= 10 {
        push_number(out, n / 10)?;
    }
    out.push(b'0' + (n % 10) as u8)?;
    Ok(())
}

/// Appends a field and the space behind it.
pub fn push_field(out: &mut Vec<u8>, field: &[u8]) -> Result<(), AllocError>
    ensures { OnOk result (out.new.items ≡ out.old.items ++ (field.now ++ 32 ∷ [])) }
{
    out.extend_from_slice(field)?;
    out.push(b' ')?;
    Ok(())
}

/// Appends a line and its line break.
pub fn push_line(out: &mut Vec<u8>, line: &[u8]) -> Result<(), AllocError>
    ensures { OnOk result (out.new.items ≡ out.old.items ++ (line.now ++ 10 ∷ [])) }
{
    out.extend_from_slice(line)?;
    out.push(b'\n')?;
    Ok(())
}

/// Appends a number and the space behind it.
pub fn push_number_field(out: &mut Vec<u8>, n: usize) -> Result<(), AllocError>
    ensures { OnOk result (out.new.items ≡ out.old.items ++ (decimal n ++ 32 ∷ [])) }
{
    push_number(out, n)?;
    Ok(out.push(b' ')?)
}

/// Appends the digits of bytes.
fn push_hex(out: &mut Vec<u8>, bytes: &[u8]) -> Result<(), AllocError>
    ensures { OnOk result (out.new.items ≡ out.old.items ++ hex bytes.now) }
{
    for b in bytes {
        out.push(upper_digit(b / 16))?;
        out.push(upper_digit(b % 16))?;
    }
    Ok(())
}

/// Appends bytes as they are printed, `-` for none.
pub fn push_bytes(out: &mut Vec<u8>, bytes: &[u8]) -> Result<(), AllocError>
    ensures { OnOk result (out.new.items ≡ out.old.items ++ shown_bytes bytes.now) }
{
    match bytes {
        [] => Ok(out.push(b'-')?),
        _ => push_hex(out, bytes),
    }
}

/// Appends what is printed for a line that cannot be read.
pub fn push_bad(out: &mut Vec<u8>, n: usize) -> Result<(), AllocError>
    ensures { OnOk result (out.new.items ≡ out.old.items ++ bad_text n) }
{
    out.extend_from_slice(b"bad line ")?;
    push_number(out, n)?;
    Ok(out.push(b'\n')?)
}
