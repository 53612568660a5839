// The parts of the text: the laws, the routes, and the forwarding entries, each with the refusal that takes its place.
// `Square`, `Sized` and the bounds stay clauses: the functions are public, and a type with them would ask more of a caller.
// n, m, mode and the language stay arguments: with a struct no clause is plainer (docs/DESIGN-PASS.md).
// `Put` speaks of `out.old`, the place and `out.new`: a struct of the buffer and its end would have to keep all three. `Display` would give no place.
ghost use Rattle.std.specs.Prelude.{◌++◌, ◌+◌, ◌*◌, ◌≤◌, length};
ghost use Rattle.weights.specs.Sizes.{places};
ghost use Rattle.matrices.specs.Buffers.{Square};
ghost use Rattle.tables.specs.Tables.{Sized};
ghost use Rattle.decimals.specs.Texts.{Put};
ghost use Rattle.printing.specs.Printed.{laws_part, routes_part, forward_part};

use laws::{LawReport, laws};
use refusals::Told;
use texts::lines::{put_laws_line, put_refused_line};
use texts::rows::{put_forwards, put_routes};
use weights::Language;

// Puts the line of the laws of a language.
pub fn put_laws(l: Language, at: usize, out: &mut [u8]) -> usize
    requires { at + 38 ≤ length out.old }
    ensures { Put 38 out.old at (laws_part l) out.new result }
{
    match laws(l) {
        Ok(LawReport { d, u, c }) => put_laws_line(d.is_held(), u.is_held(), c.is_held(), at, out),
        Err(_) => put_laws_line(false, false, false, at, out),
    }
}

// Puts the F lines of a table, or the refusal in their place; with m 0 there are none. A row of any three numbers is taken: a Result would
// ask more of a caller.
pub fn put_forward_part(
    l: Language,
    n: usize,
    m: usize,
    mode: u32,
    t: Told,
    f: &[u32],
    at: usize,
    out: &mut [u8],
) -> usize
    requires { Sized n m f.now × (l.count ≤ places) × (at + 41 + n * (m * 79) ≤ length out.old) }
    ensures { Put (41 + n * (m * 79)) out.old at (forward_part l n m mode t f.now) out.new result }
{
    if m == 0 {
        return at;
    }
    if t.number == 0 {
        return put_forwards(l.count, mode, n, m, f, at, out);
    }
    put_refused_line(t, at, out)
}

// Puts the whole text of a problem, given what the calls have told and left: the laws, the routes, the forwarding entries.
pub fn put_text(
    l: Language,
    n: usize,
    m: usize,
    mode: u32,
    t: Told,
    r: &[u32],
    u: Told,
    f: &[u32],
    out: &mut [u8],
) -> usize
    requires { Square n r.now × Sized n m f.now × (l.count ≤ places) × (65536 ≤ length out.old) }
    ensures { Put 57976 out.old 0 (laws_part l ++ routes_part l n t r.now (forward_part l n m mode u f.now)) out.new result }
{
    let at = put_laws(l, 0, out);
    if t.number == 0 {
        let end = put_routes(l.count, n, r, at, out);
        return put_forward_part(l, n, m, mode, u, f, end, out);
    }
    put_refused_line(t, at, out)
}
