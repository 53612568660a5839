// The lines: a word, its fields, and a line feed.
// The room and the count stay clauses: the functions are public, and a type with them would ask more of a caller.
// `Put` speaks of `out.old`, the place and `out.new`: a struct of the buffer and its end would have to keep all three. `Display` would give no place.
ghost use Rattle.std.specs.Prelude.{[], ◌∷◌, ◌++◌, ◌+◌, ◌≤◌, length};
ghost use Rattle.decimals.specs.Texts.{Put};
ghost use Rattle.weights.specs.Values.{weight_of};
ghost use Rattle.modes.specs.Entries.{entry_of};
ghost use Rattle.texts.specs.Lines.{feed_byte, spaced, route_line, entry_line, refused_line, laws_line};
ghost use Rattle.texts.specs.Parts.{first_values, first_of_entry};

use super::pieces::{put_entry, put_field, put_weight};
use modes::Entry;
use refusals::Told;
use weights::Weight;

// Puts a letter and two fields.
fn put_letter(letter: u8, x: u32, y: u32, at: usize, out: &mut [u8]) -> usize
    requires { at + 23 ≤ length out.old }
    ensures { Put 23 out.old at (letter ∷ spaced (x ∷ y ∷ [])) out.new result }
{
    out[at] = letter;
    let one = put_field(x, at + 1, out);
    put_field(y, one, out)
}

// Puts the line of a route.
pub fn put_route_line(count: u32, i: u32, j: u32, w: Weight, at: usize, out: &mut [u8]) -> usize
    requires { (at + 68 ≤ length out.old) × (count ≤ 4) }
    ensures { Put 68 out.old at (route_line i j (first_values count (weight_of w))) out.new result }
{
    let two = put_letter(b'R', i, j, at, out);
    let end = put_weight(count, w, two, out);
    out[end] = b'\n';
    end + 1
}

// Puts the line of a forwarding entry.
pub fn put_entry_line(
    count: u32,
    mode: u32,
    i: u32,
    d: u32,
    e: Entry,
    at: usize,
    out: &mut [u8],
) -> usize
    requires { (at + 79 ≤ length out.old) × (count ≤ 4) }
    ensures { Put 79 out.old at (entry_line mode i d (first_of_entry count (entry_of e))) out.new result }
{
    let two = put_letter(b'F', i, d, at, out);
    let end = put_entry(count, mode, e, two, out);
    out[end] = b'\n';
    end + 1
}

// Puts three fields and a line feed.
fn put_three(x: u32, y: u32, z: u32, at: usize, out: &mut [u8]) -> usize
    requires { at + 34 ≤ length out.old }
    ensures { Put 34 out.old at (spaced (x ∷ y ∷ z ∷ []) ++ (feed_byte ∷ [])) out.new result }
{
    let one = put_field(x, at, out);
    let two = put_field(y, one, out);
    let end = put_field(z, two, out);
    out[end] = b'\n';
    end + 1
}

// Puts the line of a refusal.
pub fn put_refused_line(t: Told, at: usize, out: &mut [u8]) -> usize
    requires { at + 41 ≤ length out.old }
    ensures { Put 41 out.old at (refused_line t) out.new result }
{
    out[at..at + 7].copy_from_slice(b"REFUSED");
    put_three(t.number, t.which, t.place, at + 7, out)
}

// Puts the line of the laws.
pub fn put_laws_line(d: bool, u: bool, c: bool, at: usize, out: &mut [u8]) -> usize
    requires { at + 38 ≤ length out.old }
    ensures { Put 38 out.old at (laws_line d u c) out.new result }
{
    out[at..at + 4].copy_from_slice(b"LAWS");
    put_three(d as u32, u as u32, c as u32, at + 4, out)
}
