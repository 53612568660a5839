// The whole: a problem file is read, its routes and its table are worked out, and its text is put.
// The bounds stay clauses: `print_text` and `print_input` are public, and a type with them would ask more of a caller;
// a problem's numbers stay arguments, as those of `put_text`, which is public, are:
// with a struct no clause is plainer (docs/DESIGN-PASS.md).
ghost use Rattle.std.specs.Prelude.{◌≡◌, ◌*◌, ◌≤◌, ◌<◌, length, take};
ghost use Rattle.weights.specs.Sizes.{places, weight_words, entry_words};
ghost use Rattle.decimals.specs.Texts.{Put};
ghost use Rattle.guards.specs.OnNetwork.{on_network};
ghost use Rattle.printing.specs.Work.{blank, blank_table};
ghost use Rattle.printing.specs.Printed.{text_of, printed, printed_input};

use super::parts::put_text;
use super::work::{work_routes, work_table};
use files::reading::read;
use forwarding::Tables;
use guards::network::Network;
use refusals::{Refusal, Told};
use texts::lines::put_refused_line;
use weights::{ENTRY_WORDS, Language, WEIGHT_WORDS};

// Puts the text of a network, worked out in two buffers of zeros.
fn put_worked(
    l: Language,
    n: usize,
    m: usize,
    mode: u32,
    a: &[u32],
    mapping: &[u32],
    r: &mut [u32],
    f: &mut [u32],
    out: &mut [u8],
) -> usize
    requires { (0 < n) × (n ≤ 16) × (m ≤ 32) × (l.count ≤ places) × (r.old ≡ blank n) × (f.old ≡ blank_table n m) × (65536 ≤ length out.old) }
    ensures { Put 57976 out.old 0 (text_of (on_network l n a.now) m mode mapping.now) out.new result }
{
    let network = Network {
        language: l,
        n: n as u32,
        arcs: a,
    };
    let routes = work_routes(&network, r);
    let tables = Tables {
        network,
        m: m as u32,
        mode,
        routes: r,
        mapping,
    };
    let table = work_table(&tables, f);
    put_text(l, n, m, mode, routes, r, table, f, out)
}

// Puts the text of the network that stands at the front of two buffers.
fn put_network(
    l: Language,
    n: usize,
    m: usize,
    mode: u32,
    arcs: &[u32],
    mapping: &[u32],
    out: &mut [u8],
) -> usize
    requires { (0 < n) × (n ≤ 16) × (m ≤ 32) × (l.count ≤ places) × (1024 ≤ length arcs.now) × (2560 ≤ length mapping.now) × (65536 ≤ length out.old) }
    ensures { Put 57976 out.old 0 (text_of (on_network l n (take (n * (n * weight_words)) arcs.now)) m mode (take (n * (m * entry_words)) mapping.now)) out.new result }
{
    let square = n * (n * WEIGHT_WORDS);
    let sized = n * (m * ENTRY_WORDS);
    let mut r = [0u32; 1024];
    let mut f = [0u32; 2560];
    put_worked(
        l,
        n,
        m,
        mode,
        &arcs[..square],
        &mapping[..sized],
        &mut r[..square],
        &mut f[..sized],
        out,
    )
}

// Puts the text of a problem file at the front, and returns its length.
pub fn print_text(file: &[u8], out: &mut [u8]) -> usize
    requires { 65536 ≤ length out.old }
    ensures { Put 57976 out.old 0 (printed file.now) out.new result }
{
    let mut arcs = [0u32; 1024];
    let mut mapping = [0u32; 2560];
    match read(file, &mut arcs, &mut mapping) {
        Ok(problem) => put_network(
            problem.language,
            problem.n as usize,
            problem.m as usize,
            problem.mode,
            &arcs,
            &mapping,
            out,
        ),
        Err(x) => put_refused_line(Told::from(x), 0, out),
    }
}

// Puts the text of what a program has read: up to 65,536 bytes, and whether the input has more.
// `more` stays an argument: the function is public, and the two are what a reader of an input has.
pub fn print_input(file: &[u8], more: bool, out: &mut [u8]) -> usize
    requires { 65536 ≤ length out.old }
    ensures { Put 57976 out.old 0 (printed_input more file.now) out.new result }
{
    if more {
        let over = Refusal::Bytes { which: 0, place: 0 };
        put_refused_line(Told::from(over), 0, out)
    } else {
        print_text(file, out)
    }
}
