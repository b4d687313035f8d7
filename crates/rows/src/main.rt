// The program of document 01: it reads standard input, at most 32,768 bytes of it, and writes what crate `printer` makes of it to
// standard output.
#![tactic(auto)]

ghost use Rattle.std.specs.Prelude.{◌≤◌, length};
ghost use Rattle.format.specs.Program.{input_room};
ghost use Rattle.printer.specs.Printed.{Read as Taken};

use printer::{INPUT_ROOM, TEXT_ROOM};
use std::io;
use std::io::{Read, Write};

// Reads until the buffer is full or the input ends, and answers how many bytes came. A read that fails counts as the end.
fn read_full<R: Read>(reader: &mut R, buffer: &mut [u8]) -> usize
    ensures { result ≤ length buffer.new }
{
    let mut done = 0;
    // No `for`: each read says how far it came.
    while done < buffer.len() {
        match reader.read(&mut buffer[done..]) {
            Ok(n) if n > 0 => done += n,
            _ => break,
        }
    }
    done
}

// Whether more follows what was read: only where there was no room for more, and one byte more comes.
fn more_follows<R: Read>(reader: &mut R, input: &[u8]) -> bool
    requires { length input.now ≤ input_room }
    ensures { Taken input.now result }
{
    if input.len() < INPUT_ROOM {
        return false;
    }
    // An array, here and in `main`: fixed memory, no heap.
    let mut next = [0u8; 1];
    read_full(reader, &mut next) == 1
}

fn main(rt: HostRuntime) -> io::Result<()> {
    let mut stdin = rt.stdin();
    let mut input = [0u8; INPUT_ROOM];
    let n = read_full(&mut stdin, &mut input);
    let more = more_follows(&mut stdin, &input[..n]);
    let mut text = [0u8; TEXT_ROOM];
    let k = printer::print(&input[..n], more, &mut text);
    rt.stdout().write_all(&text[..k])
}
