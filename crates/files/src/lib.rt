// The problem file: its bytes are checked from the first to the last (by `fields` and `records`), then what it lists is written into
// two lent buffers (by `contents`).
#![tactic(auto)]

pub mod checking;
pub mod reading;

use weights::Language;

// What the reader gives: the numbers of the network and the language. 32-bit numbers, as the calls take them, where a `Head` has sizes; the
// mode is the number that `forward` refuses by.
#[derive(Clone, Copy, Debug, PartialEq, Eq)]
pub struct Problem {
    pub n: u32,
    pub m: u32,
    pub mode: u32,
    pub language: Language,
}
