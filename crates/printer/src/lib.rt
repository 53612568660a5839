// Prints what an input holds. No contract can say what a file or standard input gives, and what standard output takes; where the bytes
// of a reader and of a writer are known, as those of memory are, `print_from` says which text the one puts into the other.
#![tactic(auto)]

ghost use Rattle.std.specs.Prelude.{nat_lt, length, OnOk, IfSome};
ghost use Rattle.std.specs.Io.KnownBytes.{Appends};
ghost use Rattle.printing.specs.Printed.{printed_input};

use inputs::read_full;
use std::io;
use std::io::{Read, Write};

// Reads up to 65,536 bytes, sees whether more follow, and writes the text. An error comes from the input or the output alone, and
// after it the output may have taken a part of the text.
pub fn print_from<R: Read, W: Write>(input: &mut R, output: &mut W) -> io::Result<()>
    ensures { OnOk result (IfSome (R.remaining input.old) (λ file.
        Appends (W.contents output.old) (W.contents output.new) (printed_input (nat_lt 65536 (length file)) file))) }
{
    let mut file = [0u8; 65536];
    let size = read_full(input, &mut file)?;
    let mut next = [0u8; 1];
    let more = 0 < read_full(input, &mut next)?;
    let mut text = [0u8; 65536];
    let end = printing::text::print_input(&file[..size], more, &mut text);
    output.write_all(&text[..end])
}
