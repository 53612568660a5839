// The lines of a matrix and of a forwarding table, by rows.
// Four loops, and not one that is given what to put: what it asks of each call would be longer than the four.
// `Square`, `Sized` and the bounds stay clauses: `put_routes` and `put_forwards` are public, and a type with them would ask more of a caller.
// `Put` speaks of `out.old`, the place and `out.new`: a struct of the buffer and its end would have to keep all three. `Display` would give no place.
ghost use Rattle.std.specs.Prelude.{◌+◌, ◌*◌, ◌≤◌, ◌<◌, length};
ghost use Rattle.weights.specs.Sizes.{places};
ghost use Rattle.matrices.specs.Buffers.{matrix_in, Square};
ghost use Rattle.tables.specs.Tables.{table_in, Sized};
ghost use Rattle.decimals.specs.Texts.{Put};
ghost use Rattle.texts.specs.Lines.{route_line, route_row, route_lines, entry_line, entry_row, entry_lines};

use super::lines::{put_entry_line, put_route_line};
use numbers::{Destination, Node};
use tables::entries::look_up;
use weights::WEIGHT_WORDS;
use words::weight_at;

// Puts the line of the route from i to j of an n x n matrix.
fn put_route(
    count: u32,
    n: usize,
    i: usize,
    j: usize,
    r: &[u32],
    at: usize,
    out: &mut [u8],
) -> usize
    requires { Square n r.now × (i < n) × (j < n) × (count ≤ places) × (at + 68 ≤ length out.old) }
    ensures { Put 68 out.old at (route_line i j (matrix_in count n r.now i j)) out.new result }
{
    let w = weight_at(r, i * (n * WEIGHT_WORDS) + j * WEIGHT_WORDS);
    put_route_line(count, i as u32, j as u32, w, at, out)
}

// Puts the lines of row i.
fn put_route_row(count: u32, n: usize, i: usize, r: &[u32], at: usize, out: &mut [u8]) -> usize
    requires { Square n r.now × (i < n) × (count ≤ places) × (at + n * 68 ≤ length out.old) }
    ensures { Put (n * 68) out.old at (route_row n (matrix_in count n r.now) i) out.new result }
{
    let mut end = at;
    for j in 0..n {
        end = put_route(count, n, i, j, r, end, out);
    }
    end
}

// Puts the lines of an n x n matrix.
pub fn put_routes(count: u32, n: usize, r: &[u32], at: usize, out: &mut [u8]) -> usize
    requires { Square n r.now × (count ≤ places) × (at + n * (n * 68) ≤ length out.old) }
    ensures { Put (n * (n * 68)) out.old at (route_lines n (matrix_in count n r.now)) out.new result }
{
    let mut end = at;
    for i in 0..n {
        end = put_route_row(count, n, i, r, end, out);
    }
    end
}

// Puts the line of node i's entry for destination d.
fn put_forward(
    count: u32,
    mode: u32,
    n: usize,
    m: usize,
    i: usize,
    d: usize,
    f: &[u32],
    at: usize,
    out: &mut [u8],
) -> usize
    requires { Sized n m f.now × (i < n) × (d < m) × (count ≤ places) × (at + 79 ≤ length out.old) }
    ensures { Put 79 out.old at (entry_line mode i d (table_in count m f.now i d)) out.new result }
{
    let e = look_up(f, m, Node(i), Destination(d));
    put_entry_line(count, mode, i as u32, d as u32, e, at, out)
}

// Puts the lines of node i.
fn put_forward_row(
    count: u32,
    mode: u32,
    n: usize,
    m: usize,
    i: usize,
    f: &[u32],
    at: usize,
    out: &mut [u8],
) -> usize
    requires { Sized n m f.now × (i < n) × (count ≤ places) × (at + m * 79 ≤ length out.old) }
    ensures { Put (m * 79) out.old at (entry_row mode m (table_in count m f.now) i) out.new result }
{
    let mut end = at;
    for d in 0..m {
        end = put_forward(count, mode, n, m, i, d, f, end, out);
    }
    end
}

// Puts the lines of a table of n nodes and m destinations.
pub fn put_forwards(
    count: u32,
    mode: u32,
    n: usize,
    m: usize,
    f: &[u32],
    at: usize,
    out: &mut [u8],
) -> usize
    requires { Sized n m f.now × (count ≤ places) × (at + n * (m * 79) ≤ length out.old) }
    ensures { Put (n * (m * 79)) out.old at (entry_lines mode n m (table_in count m f.now)) out.new result }
{
    let mut end = at;
    for i in 0..n {
        end = put_forward_row(count, mode, n, m, i, f, end, out);
    }
    end
}
