//! The set-up of a script.
ghost use Rattle.std.specs.Prelude.{◌≡◌};
ghost use Rattle.std.specs.Option.{option_map};
ghost use Rattle.script.specs.Setup.{setup_names, small_in, metres_in, fill_in, chosen_in, first_number, values_in};
ghost use Rattle.script.specs.SetupViews.{chosen_seen, values_seen, counted_seen};
ghost use Rattle.text.specs.Words.{spells, cut_of};

use text::{byte, cut, number_in};

/// What is on the card: a metre with this count, or a yarn record of this byte throughout.
#[derive(Clone, Copy, Debug, PartialEq, Eq)]
pub enum App {
    Metre(u32),
    Yarn(u8),
}

/// The frame size codes of reader and card, the card number, the reader's repeats and waits, and the application.
#[derive(Clone, Copy, Debug, PartialEq, Eq)]
pub struct Values {
    pub fsdi: u8,
    pub fsci: u8,
    pub cid: u8,
    pub repeats: u8,
    pub waits: u8,
    pub app: App,
}

/// The line is the line of set-up names.
pub fn names_setup(line: &[u8]) -> bool
    ensures { result ≡ spells setup_names line.now }
{
    line == b"fsdi fsci cid repeats waits app amount".as_slice()
}

/// A number of one byte.
fn small_in(field: &[u8]) -> Option<u8>
    ensures { result ≡ small_in field.now }
{
    u8::try_from(number_in(field)?).ok()
}

/// A number of four bytes.
fn metres_in(field: &[u8]) -> Option<u32>
    ensures { result ≡ metres_in field.now }
{
    u32::try_from(number_in(field)?).ok()
}

/// A byte of two digits.
fn fill_in(field: &[u8]) -> Option<u8>
    ensures { result ≡ fill_in field.now }
{
    match field {
        [high, low] => byte(*high, *low),
        _ => None,
    }
}

/// APP AMOUNT
fn app_in(fields: &[u8]) -> Option<App>
    ensures { option_map chosen_seen result ≡ chosen_in (cut_of fields.now) }
{
    let (app, amount) = cut(fields)?;
    match app {
        b"metre" => Some(App::Metre(metres_in(amount)?)),
        b"yarn" => Some(App::Yarn(fill_in(amount)?)),
        _ => None,
    }
}

/// A number of one byte up to a space, and what stands behind it.
fn first_number<'a>(line: &'a [u8]) -> Option<(u8, &'a [u8])>
    ensures { counted_seen result ≡ first_number line.now }
{
    let (field, rest) = cut(line)?;
    Some((small_in(field)?, rest))
}

/// The values that a line stands for, if it can be read.
pub fn values_in(line: &[u8]) -> Option<Values>
    ensures { option_map values_seen result ≡ values_in line.now }
{
    let (fsdi, rest) = first_number(line)?;
    let (fsci, rest) = first_number(rest)?;
    let (cid, rest) = first_number(rest)?;
    let (repeats, rest) = first_number(rest)?;
    let (waits, rest) = first_number(rest)?;
    let app = app_in(rest)?;
    Some(Values {
        fsdi,
        fsci,
        cid,
        repeats,
        waits,
        app,
    })
}
