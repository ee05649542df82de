//! Reads a script from standard input, plays it on a reader and a card, and prints a row for each call.
#![tactic(auto)]

use std::io;
use std::io::{Read, Write};
use trial::write_output;

// The mains of `inspect`, `bench` and `bench_vectors` stay three: no clause can say what a function that they share would print.
fn main(rt: HostRuntime) -> io::Result<()> {
    let alloc = rt.alloc();
    let mut input = Vec::new(alloc);
    rt.stdin().read_to_end(&mut input)?;
    let mut out = String::new(alloc);
    write_output(alloc, &mut out, &input)?;
    rt.stdout().write_all(out.as_bytes())
}
