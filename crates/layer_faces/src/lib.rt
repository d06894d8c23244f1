// The faces of one layer of cells: the Rust's make_all_quads, a layer at a time. They are found at the layer's own vertices, by the signs of the two
// layers of distances; the vertices round an edge are looked up in the layer's part of the map and in that of the layer below, which both stand
// finished, and their positions by their numbers. Whatever stands in the part below, no look-up leaves its list.
//
//   p1 and p2 are the ends of an edge along A. The four cells round it, seen from p2, with B to the right and C up:
//
//         C
//         |
//     v2  |  v1      v1 is the cell at p1, v2 one step down along B, v3 one step down along C,
//     ----p----- B   v4 down along both.
//     v4  |  v3
#![tactic(auto)]

ghost use Rattle.std.specs.Prelude.{◌≡◌, ◌+◌, ◌*◌, ◌<◌, ◌≤◌, T, length, if◌then◌else◌, true, false, slice_index, slice_index_or, slice_set};
ghost use Rattle.std.specs.Float.{nan};
ghost use Rattle.std.proofs.lemmas.List.Edits.{sets};
ghost use Rattle.lists.specs.Lists.{joined};
ghost use Rattle.rules.specs.Grid.{axis_x, axis_y, axis_z, is_cell};
ghost use Rattle.rules.specs.Faces.{edge, gives, layer_edges};
ghost use Rattle.cube.specs.AsRules.{vector};
ghost use Rattle.grid.specs.Block.{point, box_of, flags_of};
ghost use Rattle.grid.specs.Layers.{in_layer, InLayers};
ghost use Rattle.grid.specs.Values.{between};
ghost use Rattle.layer_faces.specs.Below.{nowhere, position_at, face_over, indices_over, Standing};
ghost use Rattle.layer_faces.specs.Quads.{seen, quad_of, Reaches, looked, Cells, listed, place_at, own, way, way2, way3, way4, quad_at, some_edges, Batch};
ghost use Rattle.layer_faces.specs.Filing.{axis_number, along, AllFiled, AllReady, faces_put};

use cube::Point;
use grid::signs::counted;
use grid::values::{Distance, value_at};
use grid::{Block, EachAxis, Extent};

// The number of the layer's first vertex, and of the first of the layer below.
#[derive(Clone, Copy)]
pub struct Firsts {
    pub here: u32,
    pub below: u32,
}

// A vertex that was looked up.
#[derive(Clone, Copy)]
pub struct Vertex {
    pub number: u32,
    pub position: Point,
}

// One of the cells round an edge: so many entries before the edge's own, in this layer or in the one below.
#[derive(Clone, Copy)]
pub struct Way {
    pub here: bool,
    pub back: usize,
}

// The position of no vertex.
fn no_position() -> Point
    ensures { vector result ≡ nowhere }
{
    let none: f32 = 0.0 / 0.0;
    Point {
        x: none,
        y: none,
        z: none,
    }
}

// One of two values that both stand ready.
fn pick<T: Copy>(first: bool, x: T, y: T) -> T
    ensures { result ≡ (if first then x else y) }
{
    if first {
        return x;
    }
    y
}

// ---- A vertex looked up, in this layer or in the one below: which of the two is chosen without a branch, since it cannot be foreseen.

fn entry_in(here: bool, map: &[u32], below: &[u32], at: usize) -> u32
    requires { at < length (if here then map.now else below.now) }
    ensures { result ≡ slice_index (if here then map.now else below.now) at }
{
    if here {
        return map[at];
    }
    below[at]
}

fn float_in(here: bool, positions: &[f32], below: &[f32], at: usize) -> f32
    requires { at < length (if here then positions.now else below.now) }
    ensures { result ≡ slice_index_or (if here then positions.now else below.now) at nan }
{
    if here {
        return positions[at];
    }
    below[at]
}

// The position of the vertex v, in the list of one of the layers; of none where the list has no such vertex: a lesser number than the first one's
// wraps to a difference that is more than any list has.
fn vertex_in(here: bool, first: Firsts, positions: &[f32], below: &[f32], v: u32) -> Point
    ensures { vector result ≡ position_at (if here then positions.now else below.now) (if here then first.here else first.below) v }
{
    let start = pick(here, first.here, first.below);
    let count = pick(here, positions.len() / 3, below.len() / 3);
    let place = std::num::wrapping_sub_usize(v as usize, start as usize);
    if count <= place {
        return no_position();
    }
    let at = 3 * place;
    Point {
        x: float_in(here, positions, below, at),
        y: float_in(here, positions, below, at + 1),
        z: float_in(here, positions, below, at + 2),
    }
}

fn look(
    w: Way,
    first: Firsts,
    map: &[u32],
    positions: &[f32],
    map_below: &[u32],
    positions_below: &[f32],
    cell: usize,
) -> Vertex
    requires { Reaches map.now map_below.now cell w }
    ensures { seen result ≡ looked first map.now positions.now map_below.now positions_below.now cell w }
{
    let number = entry_in(w.here, map, map_below, cell - w.back);
    Vertex {
        number,
        position: vertex_in(w.here, first, positions, positions_below, number),
    }
}

// Two triangles, split along the shorter diagonal, facing away from the negative end. The four vertices go round the edge from an end of that diagonal
// on, a b c d, so that the triangles are a b c and a c d, or both turned; chosen without a branch, since neither test can be foreseen.
fn make_quad(
    v1: Vertex,
    v2: Vertex,
    v3: Vertex,
    v4: Vertex,
    n1: bool,
    indices: &mut [u32],
    at: usize,
)
    requires { at + 6 ≤ length indices.old }
    ensures { indices.new ≡ sets indices.old at (quad_of n1 (seen v1) (seen v2) (seen v3) (seen v4)) }
{
    let p1 = v1.position;
    let p2 = v2.position;
    let p3 = v3.position;
    let p4 = v4.position;
    let shorter = p1.squared_distance(p4) < p2.squared_distance(p3);
    let a = pick(shorter, v1.number, v2.number);
    let b = pick(shorter, v2.number, v4.number);
    let c = pick(shorter, v4.number, v3.number);
    let d = pick(shorter, v3.number, v1.number);
    stores::put_six(
        indices,
        at,
        a,
        pick(n1, b, c),
        pick(n1, c, b),
        a,
        pick(n1, c, d),
        pick(n1, d, c),
    );
}

// ---- The edges of a batch of vertices that give a face, listed first, so that no branch hangs on a sign: those along each axis in a list of their
// own, each with its place among all of them, so that the faces along one axis are made in one loop, which asks for the axis once.

// Which of the three edges from the lowest corner of the cell c give a face.
fn giving<D: Distance>(lower: &[D], upper: &[D], k: Block, c: Extent) -> EachAxis
    requires in_layers { InLayers (D.floats lower.now) (D.floats upper.now) k c.z }
    requires t { T (is_cell (box_of k) (point c)) }
    ensures x_value { result.x ≡ gives (between D.floats lower.now upper.now k c.z) (box_of k) (flags_of k) (edge axis_x (point c)) }
    ensures y_value { result.y ≡ gives (between D.floats lower.now upper.now k c.z) (box_of k) (flags_of k) (edge axis_y (point c)) }
    ensures z_value { result.z ≡ gives (between D.floats lower.now upper.now k c.z) (box_of k) (flags_of k) (edge axis_z (point c)) }
{
    let row = k.dims.x as usize;
    let cell = (c.x as usize) + row * (c.y as usize);
    let own = grid::ownership::owned_at(k, c);
    let n = cube::negative(value_at(lower, cell));
    let nx = cube::negative(value_at(lower, cell + 1));
    let ny = cube::negative(value_at(lower, cell + row));
    let nz = cube::negative(value_at(upper, cell));
    EachAxis {
        x: own.x & (n != nx),
        y: own.y & (n != ny),
        z: own.z & (n != nz),
    }
}

// How many edges along each axis are listed, and how many in all.
#[derive(Clone, Copy)]
struct Listed {
    x: usize,
    y: usize,
    z: usize,
    all: u32,
}

// One edge: the entry becomes its vertex and its place among all either way; who calls counts it if the edge gives a face.
fn list_edge(who: &mut [u32; 96], rank: &mut [u32; 96], entry: usize, j: u32, place: u32)
    requires { entry < 96 }
    ensures who_after { who.new ≡ slice_set who.old entry j }
    ensures rank_after { rank.new ≡ slice_set rank.old entry place }
{
    who[entry] = j;
    rank[entry] = place;
}

// Of the vertices `from` to `from + n` of the layer, at most 32: the edges that give a face, those along the axis a (0, 1, 2) from the entry 32 a on.
fn list_edges<D: Distance>(
    lower: &[D],
    upper: &[D],
    k: Block,
    z: u32,
    cells: &[u32],
    from: usize,
    n: usize,
    who: &mut [u32; 96],
    rank: &mut [u32; 96],
) -> Listed
    requires in_layers { InLayers (D.floats lower.now) (D.floats upper.now) k z }
    requires cells { Cells (box_of k) z cells.now (from + n) }
    requires n_bound { n ≤ 32 }
    requires who_len { (length who.old ≡ 96) × (length rank.old ≡ 96) }
    ensures { AllFiled (listed (between D.floats lower.now upper.now k z) (box_of k) (flags_of k) cells.now z from (3 * n))
        who.new rank.new result.x result.y result.z result.all }
{
    let mut x = 0usize;
    let mut y = 0usize;
    let mut along_z = 0usize;
    let mut all = 0u32;
    for j in 0usize..n {
        let i = 3 * (from + j);
        let c = Extent {
            x: cells[i],
            y: cells[i + 1],
            z,
        };
        let t = giving(lower, upper, k, c);
        let one_x = counted(t.x);
        let one_y = counted(t.y);
        let one_z = counted(t.z);
        list_edge(who, rank, x, j as u32, all);
        x += one_x as usize;
        all += one_x;
        list_edge(who, rank, 32 + y, j as u32, all);
        y += one_y as usize;
        all += one_y;
        list_edge(who, rank, 64 + along_z, j as u32, all);
        along_z += one_z as usize;
        all += one_z;
    }
    Listed {
        x,
        y,
        z: along_z,
        all,
    }
}

// ---- The face of one of them.

// Where the cell of the vertex v stands in its layer.
fn place_of(cells: &[u32], row: usize, v: usize) -> usize
    requires v_in_bounds { 3 * v + 2 < length cells.now }
    requires v_bound { place_at row cells.now v < 18446744073709551616 }
    ensures { result ≡ place_at row cells.now v }
{
    (cells[3 * v] as usize) + row * (cells[3 * v + 1] as usize)
}

// The vertex v of this layer, by its number alone.
fn own_vertex(first: u32, positions: &[f32], v: usize) -> Vertex
    requires v_in_bounds { 3 * v + 2 < length positions.now }
    requires v_bound { first + v < 4294967296 }
    ensures { seen result ≡ own first positions.now v }
{
    Vertex {
        number: first + (v as u32),
        position: Point {
            x: positions[3 * v],
            y: positions[3 * v + 1],
            z: positions[3 * v + 2],
        },
    }
}

// What an edge lies along.
#[derive(Clone, Copy, Debug, PartialEq, Eq)]
enum Axis {
    X,
    Y,
    Z,
}

impl Axis {
    // The first entry of its list: each axis has 32 of the 96.
    fn first_entry(self) -> usize
        ensures { result ≡ 32 * axis_number self }
    {
        match self {
            Axis::X => 0,
            Axis::Y => 32,
            Axis::Z => 64,
        }
    }
}

impl Way {
    // So many entries before, in this layer.
    fn here(back: usize) -> Way
        ensures { result ≡ way true back }
    {
        Way { here: true, back }
    }

    // So many entries before, in the layer below.
    fn below(back: usize) -> Way
        ensures { result ≡ way false back }
    {
        Way { here: false, back }
    }
}

// The other three cells round an edge along an axis.
fn second_way(row: usize, axis: Axis) -> Way
    ensures { result ≡ way2 row (along axis) }
{
    match axis {
        Axis::X => Way::here(row),
        Axis::Y => Way::below(0),
        Axis::Z => Way::here(1),
    }
}

fn third_way(row: usize, axis: Axis) -> Way
    ensures { result ≡ way3 row (along axis) }
{
    match axis {
        Axis::X => Way::below(0),
        Axis::Y => Way::here(1),
        Axis::Z => Way::here(row),
    }
}

fn fourth_way(row: usize, axis: Axis) -> Way
    requires row_bound { row < 4294967296 }
    ensures { result ≡ way4 row (along axis) }
{
    match axis {
        Axis::X => Way::below(row),
        Axis::Y => Way::below(1),
        Axis::Z => Way::here(row + 1),
    }
}

// The first vertex is the edge's own; the other three are so many entries before it in the one map or the other, as the axis says.
fn put_faces<D: Distance>(
    lower: &[D],
    row: usize,
    first: Firsts,
    cells: &[u32],
    map: &[u32],
    positions: &[f32],
    map_below: &[u32],
    positions_below: &[f32],
    from: usize,
    axis: Axis,
    who: &[u32; 96],
    rank: &[u32; 96],
    count: usize,
    indices: &mut [u32],
    at: usize,
)
    requires { AllReady (D.floats lower.now) row first.here cells.now map.now positions.now map_below.now who.now rank.now
        from (axis_number axis) count at (length indices.old) }
    ensures { indices.new ≡ faces_put (λ v. quad_at first map.now positions.now map_below.now positions_below.now
        (D.floats lower.now) row cells.now v (along axis)) who.now rank.now (32 * axis_number axis) from at count
        indices.old }
{
    let second = second_way(row, axis);
    let third = third_way(row, axis);
    let fourth = fourth_way(row, axis);
    let start = axis.first_entry();
    for q in 0usize..count {
        let v = from + (who[start + q] as usize);
        let cell = place_of(cells, row, v);
        let v1 = own_vertex(first.here, positions, v);
        let v2 = look(
            second,
            first,
            map,
            positions,
            map_below,
            positions_below,
            cell,
        );
        let v3 = look(
            third,
            first,
            map,
            positions,
            map_below,
            positions_below,
            cell,
        );
        let v4 = look(
            fourth,
            first,
            map,
            positions,
            map_below,
            positions_below,
            cell,
        );
        make_quad(
            v1,
            v2,
            v3,
            v4,
            cube::negative(value_at(lower, cell)),
            indices,
            at + 6 * (rank[start + q] as usize),
        );
    }
}

// The faces of n vertices, at most 32, and where the next one goes.
fn face_some<D: Distance>(
    lower: &[D],
    upper: &[D],
    k: Block,
    z: u32,
    first: Firsts,
    cells: &[u32],
    map: &[u32],
    positions: &[f32],
    map_below: &[u32],
    positions_below: &[f32],
    from: usize,
    n: usize,
    indices: &mut [u32],
    at: usize,
) -> usize
    requires in_layers { InLayers (D.floats lower.now) (D.floats upper.now) k z }
    requires standing { Standing (between D.floats lower.now upper.now k z) (box_of k) first.here z cells.now map.now positions.now }
    requires high_in_bounds { k.low.z < z → in_layer (point k.dims) (point k.high) < length map_below.now }
    requires batch { Batch (between D.floats lower.now upper.now k z) (box_of k) (flags_of k) z from n (length indices.old) at }
    ensures indices_after { indices.new ≡ sets indices.old at
        (joined (face_over (between D.floats lower.now upper.now k z) (box_of k) first.here z
        (record { map = map_below.now; positions = positions_below.now; first = first.below }))
        (some_edges (between D.floats lower.now upper.now k z) (box_of k) (flags_of k) z from n)) }
    ensures value { result ≡ at + 6 * length (some_edges (between D.floats lower.now upper.now k z) (box_of k) (flags_of k) z from n) }
{
    let row = k.dims.x as usize;
    let mut who = [0u32; 96];
    let mut rank = [0u32; 96];
    let m = list_edges(lower, upper, k, z, cells, from, n, &mut who, &mut rank);
    put_faces(
        lower,
        row,
        first,
        cells,
        map,
        positions,
        map_below,
        positions_below,
        from,
        Axis::X,
        &who,
        &rank,
        m.x,
        indices,
        at,
    );
    put_faces(
        lower,
        row,
        first,
        cells,
        map,
        positions,
        map_below,
        positions_below,
        from,
        Axis::Y,
        &who,
        &rank,
        m.y,
        indices,
        at,
    );
    put_faces(
        lower,
        row,
        first,
        cells,
        map,
        positions,
        map_below,
        positions_below,
        from,
        Axis::Z,
        &who,
        &rank,
        m.z,
        indices,
        at,
    );
    at + 6 * (m.all as usize)
}

// The layer z: the faces of its vertices, in their order, from a place of the indices on, and how many numbers they are.
pub fn face_layer<D: Distance>(
    lower: &[D],
    upper: &[D],
    k: Block,
    z: u32,
    first: Firsts,
    cells: &[u32],
    map: &[u32],
    positions: &[f32],
    map_below: &[u32],
    positions_below: &[f32],
    indices: &mut [u32],
    at: usize,
) -> usize
    requires in_layers { InLayers (D.floats lower.now) (D.floats upper.now) k z }
    requires standing { Standing (between D.floats lower.now upper.now k z) (box_of k) first.here z cells.now map.now positions.now }
    requires high_in_bounds { k.low.z < z → in_layer (point k.dims) (point k.high) < length map_below.now }
    requires z_in_bounds { at + 6 * length (layer_edges (between D.floats lower.now upper.now k z) (box_of k) (flags_of k) z) ≤ length indices.old }
    ensures indices_after { indices.new ≡ sets indices.old at
        (indices_over (between D.floats lower.now upper.now k z) (box_of k) (flags_of k) first.here z
        (record { map = map_below.now; positions = positions_below.now; first = first.below })) }
    ensures value { result ≡ 6 * length (layer_edges (between D.floats lower.now upper.now k z) (box_of k) (flags_of k) z) }
{
    let count = cells.len() / 3;
    let mut used = at;
    for done in (0..count).step_by(32) {
        let n = (count - done).min(32);
        used = face_some(
            lower,
            upper,
            k,
            z,
            first,
            cells,
            map,
            positions,
            map_below,
            positions_below,
            done,
            n,
            indices,
            used,
        );
    }
    used - at
}
