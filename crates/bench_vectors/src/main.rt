//! Plays many scripts: each on standard input is ended by a line `--`, and so is what is printed for it.
#![tactic(auto)]

use std::alloc::{AllocError, Global};
use std::io;
use std::io::{Read, Write};
use text::{Lines, push_line};
use trial::write_output;

fn push_each(alloc: Global, out: &mut String, input: &[u8]) -> Result<(), AllocError> {
    let mut script = Vec::new(alloc);
    for line in Lines::new(input) {
        if line == b"--".as_slice() {
            write_output(alloc, out, &script)?;
            out.push_str("--\n")?;
            script.clear();
        } else {
            push_line(&mut script, line)?;
        }
    }
    Ok(())
}

fn main(rt: HostRuntime) -> io::Result<()> {
    let alloc = rt.alloc();
    let mut input = Vec::new(alloc);
    rt.stdin().read_to_end(&mut input)?;
    let mut out = String::new(alloc);
    push_each(alloc, &mut out, &input)?;
    rt.stdout().write_all(out.as_bytes())
}
