// What the program prints for what it reads: document 01's input taken apart, encoded, and shown as text, into a lent buffer and not by
// `write!`, as crate `texts` says.
#![tactic(auto)]

ghost use Rattle.std.specs.Prelude.{◌≤◌, length};
ghost use Rattle.format.specs.Program.{output};
ghost use Rattle.basics.specs.Wrote.{Wrote};
ghost use Rattle.sheet_text.specs.SheetText.{text_room};
ghost use Rattle.printer.specs.Printed.{Printed};

use format::Refusal;
use number::Word;
use sheet_text::print_sheet;
use texts::put_refused;

// The most that is read of standard input.
pub const INPUT_ROOM: usize = 32768;

// The most that is printed: 32,768 row bytes in hex and 4,096 newlines.
pub const TEXT_ROOM: usize = 69632;

// The whole input: list length, list, row count, and the sheet to the end. 25, an input over 32,768 bytes or a cut header, comes
// before all else.
fn print_input(input: &[u8], out: &mut [u8]) -> usize
    requires { text_room ≤ length out.old }
    ensures { Wrote (output input.now) 0 out.old out.new result }
{
    if INPUT_ROOM < input.len() {
        return put_refused(Refusal::Input, out);
    }
    if input.len() < 2 {
        return put_refused(Refusal::Input, out);
    }
    let list_end = 2 + u16::low(input, 0) as usize;
    let sheet_start = list_end + 2;
    if input.len() < sheet_start {
        return put_refused(Refusal::Input, out);
    }
    let n = u16::low(input, list_end) as u64;
    print_sheet(&input[2..list_end], n, &input[sheet_start..], out)
}

// The text for what was read of standard input, in front of `out`, and its length: 25 where more follows, or where that is over
// 32,768 bytes.
pub fn print(input: &[u8], more: bool, out: &mut [u8; TEXT_ROOM]) -> usize
    ensures { Printed input.now more out.old out.new result }
{
    if more {
        return put_refused(Refusal::Input, out);
    }
    print_input(input, out)
}
