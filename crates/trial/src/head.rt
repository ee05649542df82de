//! A whole script: its set-up, its names, and its calls.
ghost use Rattle.std.specs.Prelude.{◌≡◌, ◌++◌, OnOk, string_bytes};
ghost use Rattle.pair.specs.Pairs.{world_seen, setup_seen};
ghost use Rattle.script.specs.SetupViews.{values_seen, chosen_seen};
ghost use Rattle.text.specs.LineViews.{lines_left};
ghost use Rattle.trial.specs.Outputs.{calls_shown, bench_shown, chosen_shown, output};

use super::bench::set_up;
use super::rows::push_rows;
use applications::{Application, Metre, Yarn};
use pair::Pair;
use script::{App, Values, names_calls, names_setup, values_in, write_names};
use std::alloc::{AllocError, Global};
use std::fmt::Write;
use text::{BadLine, Lines};

/// Line 3 and the calls behind it.
fn push_calls<A: Application>(
    alloc: Global,
    pair: &mut Pair<A>,
    out: &mut String,
    mut lines: Lines<'_>,
) -> Result<(), AllocError>
    ensures { OnOk result (string_bytes out.new ≡ string_bytes out.old ++ calls_shown (setup_seen A.Application.model pair.old) (world_seen pair.old) (lines_left lines.entry)) }
{
    match lines.next() {
        Some(line) if names_calls(line) => {
            write_names(out)?;
            push_rows(alloc, pair, out, lines)
        }
        _ => write!(out, "{}", BadLine(3)),
    }
}

/// A bench with these values and this application.
fn push_bench<A: Application + Drop>(
    alloc: Global,
    values: Values,
    application: A,
    out: &mut String,
    lines: Lines<'_>,
) -> Result<(), AllocError>
    ensures { OnOk result (string_bytes out.new ≡ string_bytes out.old ++ bench_shown A.Application.model (values_seen values) application (lines_left lines.entry)) }
{
    match set_up(values, application) {
        Ok(mut pair) => push_calls(alloc, &mut pair, out, lines),
        Err(_) => write!(out, "{}", BadLine(2)),
    }
}

/// The application that the values choose.
fn push_chosen(
    alloc: Global,
    values: Values,
    out: &mut String,
    lines: Lines<'_>,
) -> Result<(), AllocError>
    ensures { OnOk result (string_bytes out.new ≡ string_bytes out.old ++ chosen_shown (chosen_seen values.app) (values_seen values) (lines_left lines.entry)) }
{
    match values.app {
        App::Metre(count) => push_bench(alloc, values, Metre::new(count), out, lines),
        App::Yarn(fill) => push_bench(alloc, values, Yarn::filled(fill), out, lines),
    }
}

/// Appends what is printed for a whole script.
pub fn write_output(alloc: Global, out: &mut String, input: &[u8]) -> Result<(), AllocError>
    ensures { OnOk result (string_bytes out.new ≡ string_bytes out.old ++ output input.now) }
{
    let mut lines = Lines::new(input);
    if !lines.next().is_some_and(|line| names_setup(line)) {
        return write!(out, "{}", BadLine(1));
    }
    match lines.next().and_then(|line| values_in(line)) {
        Some(values) => push_chosen(alloc, values, out, lines),
        None => write!(out, "{}", BadLine(2)),
    }
}

/// The same, behind bytes.
pub fn push_output(alloc: Global, out: &mut Vec<u8>, input: &[u8]) -> Result<(), AllocError>
    ensures { OnOk result (out.new.items ≡ out.old.items ++ output input.now) }
{
    let mut text = String::new(alloc);
    write_output(alloc, &mut text, input)?;
    if out.is_empty() {
        *out = Vec::from(text);
        return Ok(());
    }
    out.extend_from_slice(text.as_bytes())
}
