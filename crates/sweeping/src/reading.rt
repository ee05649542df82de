//! Reading what a sweep is asked for.
ghost use Rattle.std.specs.Prelude.{◌≡◌};
ghost use Rattle.script.specs.SetupViews.{values_seen};
ghost use Rattle.text.specs.Lines.{lines_of};
ghost use Rattle.text.specs.Words.{spells};
ghost use Rattle.text.specs.LineViews.{lines_left};
ghost use Rattle.sweeping.specs.OrderViews.{ReadsOrder};
ghost use Rattle.sweeping.specs.Orders.{order_names, is_command, losses_in, first_in, with_losses, from_fourth, from_third, from_second, from_first};

use super::order::{Order, OrderError};
use super::set_up::in_range;
use buffers::COMMAND_ROOM;
use script::{Values, names_setup, values_in};
use std::alloc::Global;
use text::{Lines, bytes_in, cut, number_in};

/// The longest run of losses.
const MOST_LOSSES: usize = 5;

fn is_command(bytes: &[u8]) -> bool
    ensures { result ≡ is_command bytes.now }
{
    1 <= bytes.len() && bytes.len() <= COMMAND_ROOM
}

fn losses_in(field: &[u8]) -> Option<usize>
    ensures { result ≡ losses_in field.now }
{
    number_in(field).filter(|n| 1 <= *n && *n <= MOST_LOSSES)
}

/// The line is the line of the order's names.
fn names_order(line: &[u8]) -> bool
    ensures { result ≡ spells order_names line.now }
{
    matches!(line, b"command losses")
}

/// The number of losses, and nothing behind the line.
fn read_losses(
    values: Values,
    command: Vec<u8>,
    field: &[u8],
    mut lines: Lines<'_>,
) -> Result<Order, OrderError>
    ensures { ReadsOrder (with_losses (values_seen values) command.items (losses_in field.now) (lines_left lines.entry)) result }
{
    let losses = losses_in(field).ok_or(OrderError::Line(4))?;
    if lines.next().is_some() {
        return Err(OrderError::Line(5));
    }
    Ok(Order {
        values,
        command,
        losses,
    })
}

/// COMMAND LOSSES
fn read_fourth(alloc: Global, values: Values, mut lines: Lines<'_>) -> Result<Order, OrderError>
    ensures { ReadsOrder (from_fourth (values_seen values) (first_in (lines_left lines.entry))) result }
{
    let line = lines.next().ok_or(OrderError::Line(4))?;
    let (field, losses) = cut(line).ok_or(OrderError::Line(4))?;
    let command = bytes_in(alloc, field).map_err(|why| OrderError::at(4, why))?;
    if !is_command(&command) {
        return Err(OrderError::Line(4));
    }
    read_losses(values, command, losses, lines)
}

/// The names, and what stands behind them.
fn read_third(alloc: Global, values: Values, mut lines: Lines<'_>) -> Result<Order, OrderError>
    ensures { ReadsOrder (from_third (values_seen values) (first_in (lines_left lines.entry))) result }
{
    let line = lines.next().ok_or(OrderError::Line(3))?;
    if !names_order(line) {
        return Err(OrderError::Line(3));
    }
    read_fourth(alloc, values, lines)
}

/// The values of the set-up, and what stands behind them.
fn read_second(alloc: Global, mut lines: Lines<'_>) -> Result<Order, OrderError>
    ensures { ReadsOrder (from_second (first_in (lines_left lines.entry))) result }
{
    let line = lines.next().ok_or(OrderError::Line(2))?;
    let values = values_in(line).ok_or(OrderError::Line(2))?;
    if !in_range(values) {
        return Err(OrderError::Line(2));
    }
    read_third(alloc, values, lines)
}

/// What a text asks for.
pub fn read_order(alloc: Global, text: &[u8]) -> Result<Order, OrderError>
    ensures { ReadsOrder (from_first (first_in (lines_of text.now))) result }
{
    let mut lines = Lines::new(text);
    let line = lines.next().ok_or(OrderError::Line(1))?;
    if !names_setup(line) {
        return Err(OrderError::Line(1));
    }
    read_second(alloc, lines)
}
