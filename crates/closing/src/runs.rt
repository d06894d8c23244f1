// Runs of numbers stored into the lent room: wall, a row of distances in its border, a layer of such rows, and all layers. Each is handed its part of the
// distances; it begins at a place of the room and ends where the next one begins.
ghost use Rattle.std.specs.Prelude.{◌≡◌, ◌+◌, ◌*◌, ◌≤◌, length};
ghost use Rattle.std.proofs.lemmas.List.Edits.{sets};
ghost use Rattle.closing.specs.Runs.{spread, row_value, rows_value, layer_value, layers_value, grid_value};

use grid::values::Distance;

pub(crate) fn put_wall(wall: f32, n: usize, closed: &mut [f32], at: usize)
    requires { at + n ≤ length closed.old }
    ensures { closed.new ≡ sets closed.old at (spread (λ _. wall) n) }
{
    closed[at..at + n].fill(wall);
}

// A run of distances, as floats.
fn copy_run<D: Distance>(run: &[D], closed: &mut [f32], at: usize)
    requires { at + length (D.floats run.now) ≤ length closed.old }
    ensures { closed.new ≡ sets closed.old at (D.floats run.now) }
{
    for (j, d) in run.iter().enumerate() {
        closed[at + j] = d.float();
    }
}

// A row of distances in its border.
fn close_row<D: Distance>(row: &[D], wall: f32, closed: &mut [f32], at: usize)
    requires { at + (length (D.floats row.now) + 3) ≤ length closed.old }
    ensures { closed.new ≡ sets closed.old at (spread (row_value (D.floats row.now) wall (length (D.floats row.now)) 0) (length (D.floats row.now) + 3)) }
{
    put_wall(wall, 1, closed, at);
    copy_run(row, closed, at + 1);
    put_wall(wall, 2, closed, at + 1 + row.len());
}

// The m rows of n distances of a layer, each in its border. Not laid anew into each that calls it: its innermost loop was then up to 1.6 times slower at some
// of the places at which a linker may lay it.
#[inline(never)]
fn close_rows<D: Distance>(
    layer: &[D],
    n: usize,
    m: usize,
    wall: f32,
    closed: &mut [f32],
    at: usize,
)
    requires m_rows { n * m ≤ length (D.floats layer.now) }
    requires few { length (D.floats layer.now) ≤ 1073741824 }
    requires room { at + (n + 3) * m ≤ length closed.old }
    ensures { closed.new ≡ sets closed.old at (spread (rows_value (D.floats layer.now) wall n 0) ((n + 3) * m)) }
{
    for y in 0usize..m {
        let first = n * y;
        close_row(&layer[first..first + n], wall, closed, at + (n + 3) * y);
    }
}

// A layer of m rows of n distances in its border.
pub(crate) fn close_plane<D: Distance>(
    layer: &[D],
    n: usize,
    m: usize,
    wall: f32,
    closed: &mut [f32],
    at: usize,
)
    requires m_rows { n * m ≤ length (D.floats layer.now) }
    requires few { length (D.floats layer.now) ≤ 1073741824 }
    requires room { at + (n + 3) * (m + 3) ≤ length closed.old }
    ensures { closed.new ≡ sets closed.old at (spread (layer_value (D.floats layer.now) wall n m 0) ((n + 3) * (m + 3))) }
{
    let row = n + 3;
    put_wall(wall, row, closed, at);
    close_rows(layer, n, m, wall, closed, at + row);
    put_wall(wall, 2 * row, closed, at + row + row * m);
}

// l layers, each in its border.
fn close_planes<D: Distance>(
    sdf: &[D],
    n: usize,
    m: usize,
    l: usize,
    wall: f32,
    closed: &mut [f32],
    at: usize,
)
    requires l_layers { n * m * l ≤ length (D.floats sdf.now) }
    requires few { length (D.floats sdf.now) ≤ 1073741824 }
    requires room { at + (n + 3) * (m + 3) * l ≤ length closed.old }
    requires one_fits { (n + 3) * (m + 3) ≤ length closed.old }
    ensures { closed.new ≡ sets closed.old at (spread (layers_value (D.floats sdf.now) wall n m) ((n + 3) * (m + 3) * l)) }
{
    let plane = n * m;
    let closed_plane = (n + 3) * (m + 3);
    for z in 0usize..l {
        let first = plane * z;
        close_plane(
            &sdf[first..first + plane],
            n,
            m,
            wall,
            closed,
            at + closed_plane * z,
        );
    }
}

// l layers in their border, from the room's first place on.
pub(crate) fn close_grid<D: Distance>(
    sdf: &[D],
    n: usize,
    m: usize,
    l: usize,
    wall: f32,
    closed: &mut [f32],
)
    requires l_layers { n * m * l ≤ length (D.floats sdf.now) }
    requires few { length (D.floats sdf.now) ≤ 1073741824 }
    requires room { (n + 3) * (m + 3) * (l + 3) ≤ length closed.old }
    ensures { closed.new ≡ sets closed.old 0 (spread (grid_value (D.floats sdf.now) wall n m l) ((n + 3) * (m + 3) * (l + 3))) }
{
    let plane = (n + 3) * (m + 3);
    put_wall(wall, plane, closed, 0);
    close_planes(sdf, n, m, l, wall, closed, plane);
    put_wall(wall, 2 * plane, closed, plane + plane * l);
}
