// The fields of the problem file before its lists: the header, and the language.
#![tactic(auto)]

pub mod header;
pub mod languages;

use weights::Language;

// What has been read of a language: its product tags and its components so far.
#[derive(Clone, Copy, Debug, PartialEq, Eq)]
pub struct Found {
    pub tags: usize,
    pub language: Language,
}

// A language that was taken, with the offset after it.
#[derive(Clone, Copy, Debug, PartialEq, Eq)]
pub struct Taken {
    pub next: u32,
    pub found: Found,
}

// What stands before the two lists. The mode is the file's number, which the reader gives as it stands.
#[derive(Clone, Copy, Debug, PartialEq, Eq)]
pub struct Head {
    pub n: usize,
    pub m: usize,
    pub mode: u32,
    pub language: Language,
}

// A sound head, with the offset of the arcs.
#[derive(Clone, Copy, Debug, PartialEq, Eq)]
pub struct SoundHead {
    pub next: u32,
    pub head: Head,
}
