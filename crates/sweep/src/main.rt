//! Reads a set-up and a command from standard input, and prints how the exchange ends under every short run of losses.
#![tactic(auto)]

use std::fmt::Write as Format;
use std::io;
use std::io::{Read, Write};
use sweeping::{OrderError, Sweep, read_order};
use text::BadLine;

/// The table is printed in pieces of about this many bytes.
const PIECE: usize = 65536;

fn main(rt: HostRuntime) -> io::Result<()> {
    let alloc = rt.alloc();
    let mut input = Vec::new(alloc);
    rt.stdin().read_to_end(&mut input)?;
    let mut out = String::new(alloc);
    match read_order(alloc, &input) {
        Ok(order) => {
            for line in Sweep::new(order) {
                write!(out, "{line}")?;
                if out.len() >= PIECE {
                    rt.stdout().write_all(out.as_bytes())?;
                    out.clear();
                }
            }
        }
        Err(OrderError::Line(n)) => write!(out, "{}", BadLine(n))?,
        Err(OrderError::OutOfMemory(error)) => return Err(error.into()),
    }
    rt.stdout().write_all(out.as_bytes())
}
