//! Reads jobs from standard input, a line each, and prints what was done.
#![tactic(auto)]

use inspection::write_output;
use std::io;
use std::io::{Read, Write};

// These lines stand in `bench` and `bench_vectors` too: of a public function in their place no clause could say what it prints.
fn main(rt: HostRuntime) -> io::Result<()> {
    let alloc = rt.alloc();
    let mut input = Vec::new(alloc);
    rt.stdin().read_to_end(&mut input)?;
    let mut out = String::new(alloc);
    write_output(alloc, &mut out, &input)?;
    rt.stdout().write_all(out.as_bytes())
}
