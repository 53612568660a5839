// The parts of a request: its numbers, its language, its buffers.
ghost use Rattle.std.specs.Prelude.{◌≡◌, ◌++◌, drop, get_or, IfOk};
ghost use Rattle.exchange.specs.Components.{component_of, language_of};
ghost use Rattle.exchange.specs.Cut.{StartOf};
ghost use Rattle.exchange.specs.declared.requests.TheConstants.{NUMBERS};

use weights::{Component, Language};

// A language's numbers: the count, then kind and limit for each of four places.
const LANGUAGE_NUMBERS: usize = 9;

// A request's numbers: the call, the language, n, m, mode, i and j.
const NUMBERS: usize = 15;

// The most buffers that a request has.
const MOST_BUFFERS: usize = 4;

// Why a request is not answered as its call would.
#[derive(Clone, Copy, Debug, PartialEq, Eq)]
pub enum Unanswered {
    // It has not just the words that it states, or no call that there is.
    NoRequest,
    // A buffer is longer than the program's room for it.
    TooLong,
}

// A request that is read: its numbers, and what follows them.
#[derive(Clone, Copy)]
pub struct Request<'w> {
    pub call: u32,
    pub language: Language,
    pub n: u32,
    pub m: u32,
    pub mode: u32,
    pub from: u32,
    pub to: u32,
    // The lengths of the buffers, then the buffers.
    pub after: &'w [u32],
}

#[derive(Clone, Copy)]
pub struct Buffers<'w> {
    pub first: &'w [u32],
    pub second: &'w [u32],
    pub third: &'w [u32],
    pub fourth: &'w [u32],
}

// Limits are 16-bit numbers. A larger one, and an unknown kind, become width 0, which every call refuses 4 at its place.
// The kinds are the numbers of the protocol.
pub fn component(kind: u32, value: u32) -> Component
    ensures { result ≡ component_of kind value }
{
    let Ok(limit) = u16::try_from(value) else {
        return Component::Width(0);
    };
    match kind {
        1 => Component::Dist,
        2 => Component::Width(limit),
        3 => Component::Class(limit),
        4 => Component::Gain,
        _ => Component::Width(0),
    }
}

// The number at a place; 0 past the end.
pub fn number(numbers: &[u32], at: usize) -> u32
    ensures { result ≡ get_or numbers.now at 0 }
{
    numbers.get(at).copied().unwrap_or(0)
}

// The language in nine numbers; those that are missing count as 0.
pub fn language(numbers: &[u32]) -> Language
    ensures { result ≡ language_of numbers.now }
{
    Language {
        count: number(numbers, 0),
        first: component(number(numbers, 1), number(numbers, 2)),
        second: component(number(numbers, 3), number(numbers, 4)),
        third: component(number(numbers, 5), number(numbers, 6)),
        fourth: component(number(numbers, 7), number(numbers, 8)),
    }
}

// The first `count` words, and the others.
fn split(words: &[u32], count: usize) -> Result<(&[u32], &[u32]), Unanswered>
    ensures joined { IfOk result (λ p. p.0.now ++ p.1.now ≡ words.now) }
    ensures rest { IfOk result (λ p. p.1.now ≡ drop count words.now) }
{
    words.split_at_checked(count).ok_or(Unanswered::NoRequest)
}

// The stated length of a buffer; 0 where the call has fewer.
fn length(lengths: &[u32], which: usize) -> usize {
    lengths.get(which).map_or(0, |length| *length as usize)
}

// The first `count` words, or as many as there are, and the others.
fn front(words: &[u32], count: usize) -> (&[u32], &[u32])
    ensures joined { result.0.now ++ result.1.now ≡ words.now }
    ensures rest { result.1.now ≡ drop count words.now }
{
    words.split_at(count.min(words.len()))
}

// The buffers of a request as far as its words go, also where it does not add up: the first `count` of four; the others are empty.
pub fn cut(words: &[u32], count: usize) -> Buffers<'_>
    ensures { StartOf (drop count (drop NUMBERS words.now)) (result.first.now ++ result.second.now ++ result.third.now ++ result.fourth.now) }
{
    let (_, after) = front(words, NUMBERS);
    let (lengths, behind_lengths) = front(after, count);
    let (first, behind_first) = front(behind_lengths, length(lengths, 0));
    let (second, behind_second) = front(behind_first, length(lengths, 1));
    let (third, behind_third) = front(behind_second, length(lengths, 2));
    let (fourth, _) = front(behind_third, length(lengths, 3));
    Buffers {
        first,
        second,
        third,
        fourth,
    }
}

impl<'w> Request<'w> {
    pub fn read(words: &'w [u32]) -> Result<Self, Unanswered> {
        let (call, rest) = words.split_first().ok_or(Unanswered::NoRequest)?;
        let (nine, rest) = rest
            .split_first_chunk::<LANGUAGE_NUMBERS>()
            .ok_or(Unanswered::NoRequest)?;
        let ([n, m, mode, from, to], after) = rest
            .split_first_chunk::<5>()
            .ok_or(Unanswered::NoRequest)?;
        Ok(Request {
            call: *call,
            language: language(nine),
            n: *n,
            m: *m,
            mode: *mode,
            from: *from,
            to: *to,
            after,
        })
    }

    // The buffers, the first `count` of four; the others are empty. They have the lengths that are stated, and no word is left.
    pub fn buffers(&self, count: usize) -> Result<Buffers<'w>, Unanswered>
        ensures { IfOk result (λ b. b.first.now ++ b.second.now ++ b.third.now ++ b.fourth.now ≡ drop count self.now.after.now) }
    {
        if MOST_BUFFERS < count {
            return Err(Unanswered::NoRequest);
        }
        let (lengths, rest) = split(self.after, count)?;
        let (first, rest) = split(rest, length(lengths, 0))?;
        let (second, rest) = split(rest, length(lengths, 1))?;
        let (third, rest) = split(rest, length(lengths, 2))?;
        let (fourth, rest) = split(rest, length(lengths, 3))?;
        if !rest.is_empty() {
            return Err(Unanswered::NoRequest);
        }
        Ok(Buffers {
            first,
            second,
            third,
            fourth,
        })
    }
}
