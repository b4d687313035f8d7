// Document 01's cases to run, then the recorded cases of standard input, a line each; the gate holds what is printed.
#![tactic(auto)]

use std::io;
use std::io::{BufWriter, Read, Write};

mod cases;
mod document;
mod reader;
mod show;

fn main(rt: HostRuntime) -> io::Result<()> {
    let mut out = BufWriter::new(rt.alloc(), rt.stdout())?;
    document::run(&mut out)?;
    let mut input = Vec::new(rt.alloc());
    rt.stdin().read_to_end(&mut input)?;
    cases::run(&mut out, &input)?;
    out.flush()
}
