//! The calls of a script.
ghost use Rattle.std.specs.Prelude.{◌≡◌};
ghost use Rattle.std.specs.Option.{option_map};
ghost use Rattle.pair.specs.Pairs.{fate_seen};
ghost use Rattle.script.specs.Calls.{call_names, fate_in, bare_in, begun_with, stop_in, order_in, by_word, entry_in, order_word, entry_word};
ghost use Rattle.script.specs.Orders.{order_seen, entry_seen};
ghost use Rattle.text.specs.Hex.{bytes_in};
ghost use Rattle.text.specs.Reads.{Reads};
ghost use Rattle.text.specs.Words.{spells};

use pair::Fate;
use std::alloc::Global;
use text::{ReadError, bytes_in, cut};

/// A call that may write a frame.
#[derive(Debug, PartialEq, Eq, Drop)]
pub enum Order {
    Begin(Vec<u8>),
    /// the card's reply is heard, or silence where there is none
    Hear,
    /// silence
    Mute,
    /// bytes that fail the check
    Spoil,
    Close,
}

/// A call with the fate of the frame that it writes, or stop, which writes none.
#[derive(Debug, PartialEq, Eq, Drop)]
pub enum Entry {
    Call(Order, Fate),
    Stop,
}

/// The line is the line of call names.
pub fn names_calls(line: &[u8]) -> bool
    ensures { result ≡ spells call_names line.now }
{
    matches!(line, b"call data going")
}

fn going_in(field: &[u8]) -> Option<Fate>
    ensures { option_map fate_seen result ≡ fate_in field.now }
{
    match field {
        b"w" => Some(Fate::Whole),
        b"l" => Some(Fate::Lost),
        b"s" => Some(Fate::Spoilt),
        _ => None,
    }
}

/// A command that is begun.
fn begin(alloc: Global, field: &[u8], going: &[u8]) -> Result<Entry, ReadError>
    ensures { Reads entry_seen (begun_with (bytes_in field.now) (fate_in going.now)) result }
{
    let command = bytes_in(alloc, field)?;
    let going = going_in(going).ok_or(ReadError::Unreadable)?;
    Ok(Entry::Call(Order::Begin(command), going))
}

/// A call without data.
fn bare(order: Order, field: &[u8], going: &[u8]) -> Result<Entry, ReadError>
    ensures { Reads entry_seen (bare_in (order_seen order) field.now going.now) result }
{
    if field != b"-".as_slice() {
        return Err(ReadError::Unreadable);
    }
    let going = going_in(going).ok_or(ReadError::Unreadable)?;
    Ok(Entry::Call(order, going))
}

fn stop(field: &[u8], going: &[u8]) -> Result<Entry, ReadError>
    ensures { Reads entry_seen (stop_in field.now going.now) result }
{
    if field != b"-".as_slice() || going != b"-".as_slice() {
        return Err(ReadError::Unreadable);
    }
    Ok(Entry::Stop)
}

/// The call without data that a word stands for.
fn order_in(word: &[u8]) -> Option<Order>
    ensures { option_map order_seen result ≡ order_in word.now }
{
    match word {
        b"hear" => Some(Order::Hear),
        b"mute" => Some(Order::Mute),
        b"spoil" => Some(Order::Spoil),
        b"close" => Some(Order::Close),
        _ => None,
    }
}

/// What is asked for by a word, DATA and GOING.
fn by_word(alloc: Global, word: &[u8], field: &[u8], going: &[u8]) -> Result<Entry, ReadError>
    ensures { Reads entry_seen (by_word word.now field.now going.now) result }
{
    match word {
        b"begin" => begin(alloc, field, going),
        b"stop" => stop(field, going),
        _ => bare(order_in(word).ok_or(ReadError::Unreadable)?, field, going),
    }
}

/// What a line asks for, if it can be read.
pub fn entry_in(alloc: Global, line: &[u8]) -> Result<Entry, ReadError>
    ensures { Reads entry_seen (entry_in line.now) result }
{
    let (word, rest) = cut(line).ok_or(ReadError::Unreadable)?;
    let (field, going) = cut(rest).ok_or(ReadError::Unreadable)?;
    by_word(alloc, word, field, going)
}

impl Order {
    fn word(&self) -> &'static str
        ensures { result.now ≡ order_word (order_seen self.now) }
    {
        match self {
            Order::Begin(_) => "begin",
            Order::Hear => "hear",
            Order::Mute => "mute",
            Order::Spoil => "spoil",
            Order::Close => "close",
        }
    }
}

impl Entry {
    /// The word of a call.
    pub fn word(&self) -> &'static str
        ensures { result.now ≡ entry_word (entry_seen self.now) }
    {
        match self {
            Entry::Call(order, _) => order.word(),
            Entry::Stop => "stop",
        }
    }
}
