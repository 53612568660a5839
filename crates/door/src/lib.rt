// What crosses the door to C, in numbers: a language in nine, an answer in four, a law report and a problem in words.
#![tactic(auto)]

pub mod languages;
pub mod problems;
pub mod replies;
pub mod reports;
pub mod storing;

// The numbers of a language.
pub const LANGUAGE_NUMBERS: usize = 9;

// The words of a problem and of a law report.
pub const PROBLEM_WORDS: usize = 12;

pub const REPORT_WORDS: usize = 36;

// The node that stands for none.
pub const NO_NODE: u32 = 255;

// The two buffers that may lend a row at a handover.
pub const NEWER: u32 = 2;

pub const STANDING: u32 = 5;

// An answer: number, which and place, 0 0 0 being done, and the one number that the call gives. Numbers, as the C interface has them.
#[repr(C)]
#[derive(Clone, Copy, Debug, PartialEq, Eq)]
pub struct Reply {
    pub number: u32,
    pub which: u32,
    pub place: u32,
    pub value: u32,
}
