// The rows of a file as a table of edges.
ghost use Rattle.std.specs.Prelude.{◌≡◌, ◌+◌, ◌*◌, ◌≤◌, length};
ghost use Rattle.std.proofs.Math.Option.{some};
ghost use Rattle.link_form.specs.File.{rows_in};
ghost use Rattle.link_form.specs.Lent.{most_rows};
ghost use Rattle.link_form.specs.Rows.{row_of, rows_of, Passed};
ghost use Rattle.link_edges.specs.Edges.{edge_of, table_of};

use link_form::{Kind, MOST_ROWS, Rows};
use peeling::numbers::{Edge, Vertex};

// Stands behind the edges of a table that is not full.
const NO_EDGE: Edge = Edge {
    a: Vertex(0),
    b: Vertex(0),
    c: Vertex(0),
    value: 0,
};

// Reads the next edge: three vertices, and its value.
fn edge_in(rows: &mut Rows) -> Edge
    requires kind { rows.old.kind ≡ Kind.Peel }
    requires there { 3 * rows.old.width + 8 ≤ length rows.old.rest.now }
    ensures value { result ≡ edge_of (row_of rows.old) }
    ensures passed { Passed (3 * rows.old.width + 8) rows.old rows.new }
{
    let a = Vertex(rows.variable());
    let b = Vertex(rows.variable());
    let c = Vertex(rows.variable());
    let value = rows.constant();
    Edge { a, b, c, value }
}

// The first `m` edges.
pub fn load_edges(rows: &Rows, m: usize) -> [Edge; MOST_ROWS]
    requires kind { rows.now.kind ≡ Kind.Peel }
    requires whole { rows_of m rows.now ≡ some (rows_in (rows_of m rows.now)) }
    requires few { m ≤ most_rows }
    ensures { result ≡ table_of (rows_in (rows_of m rows.now)) }
{
    let mut left = *rows;
    let mut table = [NO_EDGE; MOST_ROWS];
    for i in 0..m {
        table[i] = edge_in(&mut left);
    }
    table
}
