// The fields of a line: numbers, each after a space, and the dash of what is missing.
// The room and the count stay clauses: most functions are public, and a type with them would ask more of a caller.
// `Put` speaks of `out.old`, the place and `out.new`: a struct of the buffer and its end would have to keep all three. `Display` would give no place.
ghost use Rattle.std.specs.Prelude.{cond, [], ◌∷◌, ◌+◌, ◌≤◌, length, take};
ghost use Rattle.decimals.specs.Texts.{Put};
ghost use Rattle.weights.specs.Values.{weight_of};
ghost use Rattle.modes.specs.Entries.{entry_of};
ghost use Rattle.texts.specs.Lines.{field, spaced, missing, weight_text, entry_text};
ghost use Rattle.texts.specs.Parts.{first_values, first_of_entry};

use decimals::put_number;
use modes::Entry;
use weights::Weight;

// The number of the mode in which t is omitted, as the file has it.
const PLAIN: u32 = 1;

// Puts a number after a space.
pub fn put_field(x: u32, at: usize, out: &mut [u8]) -> usize
    requires { at + 11 ≤ length out.old }
    ensures { Put 11 out.old at (field x) out.new result }
{
    out[at] = b' ';
    put_number(x, at + 1, out)
}

// Puts "-" for no route or empty.
fn put_missing(at: usize, out: &mut [u8]) -> usize
    requires { at + 2 ≤ length out.old }
    ensures { Put 2 out.old at missing out.new result }
{
    out[at..at + 2].copy_from_slice(b" -");
    at + 2
}

// Puts the first `count` of four values. They stay four: a weight and an entry have them apart.
fn put_values(
    count: u32,
    first: u32,
    second: u32,
    third: u32,
    fourth: u32,
    at: usize,
    out: &mut [u8],
) -> usize
    requires { (at + 44 ≤ length out.old) × (count ≤ 4) }
    ensures { Put 44 out.old at (spaced (take count (first ∷ second ∷ third ∷ fourth ∷ []))) out.new result }
{
    let mut end = at;
    for x in &[first, second, third, fourth][..count as usize] {
        end = put_field(*x, end, out);
    }
    end
}

// Puts a weight's components.
pub fn put_weight(count: u32, w: Weight, at: usize, out: &mut [u8]) -> usize
    requires { (at + 44 ≤ length out.old) × (count ≤ 4) }
    ensures { Put 44 out.old at (weight_text (first_values count (weight_of w))) out.new result }
{
    match w {
        Weight::Route {
            first,
            second,
            third,
            fourth,
        } => put_values(count, first, second, third, fourth, at, out),
        Weight::NoRoute => put_missing(at, out),
    }
}

// Puts an entry's components, and t but in plain mode.
pub fn put_entry(count: u32, mode: u32, e: Entry, at: usize, out: &mut [u8]) -> usize
    requires { (at + 55 ≤ length out.old) × (count ≤ 4) }
    ensures { Put 55 out.old at (entry_text mode (first_of_entry count (entry_of e))) out.new result }
{
    match e {
        Entry::Mapped {
            first,
            second,
            third,
            fourth,
            t,
        } => {
            let end = put_values(count, first, second, third, fourth, at, out);
            if mode == PLAIN {
                end
            } else {
                put_field(t, end, out)
            }
        }
        Entry::Empty => put_missing(at, out),
    }
}
