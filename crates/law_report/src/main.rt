// Reads languages from standard input, one to a line, and prints the law report of each.
// A language is nine numbers: the count, then kind (1 dist, 2 width, 3 class, 4 gain) and limit for each of four places.
#![tactic(auto)]

use exchange::requests::language;
use laws::{Law, LawReport, Witness};
use refusals::{Refusal, Told};
use std::io;
use weights::{Language, PerPlace};

// A line, as far as it is read: the number that is being read, if one is, and those before it. A line has room for nine: no heap.
#[derive(Clone, Copy, Default)]
struct Line {
    number: Option<u32>,
    read: usize,
    numbers: [u32; 9],
}

impl Line {
    // A digit goes on the number; far above every limit it no longer matters.
    fn take_digit(&mut self, digit: u8) {
        let number = self.number.unwrap_or(0);
        self.number = Some(if number < 1_000_000 {
            number * 10 + digit as u32
        } else {
            number
        });
    }

    // The number that was being read, if one was, is one of the line's; a tenth is passed over.
    fn end_number(&mut self) {
        if let Some(number) = self.number.take() {
            if let Some(place) = self.numbers.get_mut(self.read) {
                *place = number;
                self.read += 1;
            }
        }
    }
}

fn print_words(rt: &impl Print, name: &[u8], w: PerPlace<u32>) -> io::Result<()> {
    rt.write_all(name)?;
    print!(rt; "{} {} {} {}", w.first, w.second, w.third, w.fourth)
}

fn print_law(rt: &impl Print, name: &[u8], law: Law) -> io::Result<()> {
    rt.write_all(name)?;
    match law {
        Law::Held => rt.write_all(b" held:")?,
        Law::BrokenBy(_) => rt.write_all(b" broken:")?,
    }
    let Witness { s, x, y } = law.witness();
    print_words(rt, b" s ", s)?;
    print_words(rt, b" x ", x)?;
    print_words(rt, b" y ", y)?;
    rt.write_all(b"\n")
}

fn print_refusal(rt: &impl Print, r: Refusal) -> io::Result<()> {
    let t = Told::from(r);
    println!(rt; "REFUSED {} {} {}", t.number, t.which, t.place)
}

fn print_report(rt: &impl Print, l: Language) -> io::Result<()> {
    match laws::laws(l) {
        Ok(LawReport { d, u, c }) => {
            print_law(rt, b"D", d)?;
            print_law(rt, b"U", u)?;
            print_law(rt, b"C", c)
        }
        Err(r) => print_refusal(rt, r),
    }
}

// A line without a number is passed over.
fn end_line(rt: &impl Print, line: &mut Line) -> io::Result<()> {
    line.end_number();
    if 0 < line.read {
        print_report(rt, language(&line.numbers))?;
    }
    *line = Line::default();
    Ok(())
}

fn take_byte(rt: &impl Print, line: &mut Line, byte: u8) -> io::Result<()> {
    match byte {
        b'\n' => end_line(rt, line)?,
        b'0'..=b'9' => line.take_digit(byte - b'0'),
        _ => line.end_number(),
    }
    Ok(())
}

// The bytes that were read, one by one.
fn take_bytes(rt: &impl Print, bytes: &[u8], line: &mut Line) -> io::Result<()> {
    for byte in bytes {
        take_byte(rt, line, *byte)?;
    }
    Ok(())
}

fn main(rt: HostRuntime) -> io::Result<()> {
    let mut input = rt.stdin();
    let mut line = Line::default();
    for _ in 0..1000 {
        let mut bytes = [0u8; 4096];
        let got = inputs::read_full(&mut input, &mut bytes)?;
        take_bytes(&rt, &bytes[..got], &mut line)?;
        if got < 4096 {
            return end_line(&rt, &mut line);
        }
    }
    Ok(())
}
