// V and I before anything is written: the surface cells, and six for each owned edge with exactly one negative end; of the whole box in one walk with
// condition 5. A layer of cells is counted from its two layers of distances, which are lent apart, so that the whole box and a single layer have one
// count. Each row of points is read once, for the cells on both its sides. Most rows of a bed have points of one sign alone, and nothing is to be counted
// there: the negatives of a row of points tell it. Where rows are not too long, the others are counted from the codes that were kept of their points, in
// one loop; else by loops over runs of distances. No loop over a row branches or stops early: which of its edges the box owns is settled outside.
#![tactic(auto)]

ghost use Rattle.std.specs.Prelude.{◌≡◌, cond, ◌+◌, ◌-◌, ◌<◌, ◌≤◌, length};
ghost use Rattle.rules.specs.Vertices.{row_cells, layer_cells, cells};
ghost use Rattle.rules.specs.Call.{bad_distance};
ghost use Rattle.grid.specs.Block.{box_of, flags_of, field_of};
ghost use Rattle.grid.specs.Inside.{Inside};
ghost use Rattle.grid.specs.Layers.{part, two_layers, InLayers};
ghost use Rattle.row_signs.specs.Signs.{row_length, row_points, cells_negatives};
ghost use Rattle.row_signs.specs.Codes.{SmallFrom};
ghost use Rattle.count.specs.Runs.{surface_run, changes_run, owned_edges};
ghost use Rattle.count.specs.Kept.{cell_codes, counted_codes, owned_part, kept_tally, kept_where_mixed};
ghost use Rattle.count.specs.Tally.{tally_of, counts};

use grid::Block;
use grid::lent::layers_at;
use grid::ownership::owns;
use grid::signs::{counted, side_negatives, surface_count};
use grid::values::{Distance, value_at};

// Vertices and indices, counted.
#[derive(Clone, Copy, Debug, PartialEq, Eq)]
pub struct Tally {
    pub vertices: usize,
    pub indices: usize,
}

impl Tally {
    pub const NONE: Tally = Tally {
        vertices: 0,
        indices: 0,
    };
}

// What the whole box says before anything is written: condition 5, and both counts.
#[derive(Clone, Copy, Debug, PartialEq, Eq)]
pub struct Findings {
    pub bad: bool,
    pub vertices: usize,
    pub indices: usize,
}

// How many of a row's x, y and z edges the box owns.
#[derive(Clone, Copy, Debug, PartialEq, Eq)]
struct OwnedEdges {
    x: usize,
    y: usize,
    z: usize,
}

// Surface cells, and x, y and z edges with exactly one negative end, of a row's cells, each cell having the three edges at its lowest corner.
#[derive(Clone, Copy, Debug, PartialEq, Eq)]
struct CodeCounts {
    surface: u32,
    x: u32,
    y: u32,
    z: u32,
}

// How many of n cells in a row are surface cells, `at` being the place of the first one's lowest corner. A cell shares its upper x side with the
// next cell's lower one: the negatives of each side are counted once, and carried.
fn surface_cells<D: Distance>(lower: &[D], upper: &[D], at: usize, row: usize, n: usize) -> u32
    requires row_in_bounds { (at + n + row < length (D.floats lower.now)) × (at + n + row < length (D.floats upper.now)) }
    requires n_bound { n ≤ 16777217 }
    ensures { result ≡ surface_run (D.floats lower.now) (D.floats upper.now) at row n }
{
    let mut low = side_negatives(lower, upper, at, row);
    let mut count = 0u32;
    for j in 0usize..n {
        let high = side_negatives(lower, upper, at + j + 1, row);
        count += surface_count(low + high);
        low = high;
    }
    count
}

// The n distances from a place on.
fn run<D: Distance>(list: &[D], from: usize, n: usize) -> &[D]
    requires n_in_bounds { from + n ≤ length (D.floats list.now) }
    ensures { D.floats result.now ≡ part from n (D.floats list.now) }
{
    &list[from..from + n]
}

// How many edges have exactly one negative end: their lower ends are the distances of a, and their upper ones those of b, in the same order.
fn changes<D: Distance>(a: &[D], b: &[D]) -> u32
    requires same_length { length (D.floats a.now) ≡ length (D.floats b.now) }
    requires n_bound { length (D.floats a.now) ≤ 16777217 }
    ensures { result ≡ changes_run (D.floats a.now) 0 (D.floats b.now) 0 (length (D.floats a.now)) }
{
    let mut count = 0u32;
    for (&low, &high) in a.iter().zip(b) {
        count += counted(cube::negative(low.float()) != cube::negative(high.float()));
    }
    count
}

fn pick(first: bool, n: usize, m: usize) -> usize
    ensures { result ≡ cond first n m }
{
    if first { n } else { m }
}

// All n but one, and none of none.
fn all_but_one(n: usize) -> usize
    ensures { result ≡ n - 1 }
{
    n.saturating_sub(1)
}

// The row (y, z): its y and z edges are all but the first, whose x is min, and its x edges all but the last, unless max plane.
fn owned_edges(k: Block, y: u32, z: u32) -> OwnedEdges
    requires { (k.low.x ≤ k.high.x) × ((y < k.high.y) × (z < k.high.z)) }
    ensures { result ≡ owned_edges (box_of k) (flags_of k) y z }
{
    let n = (k.high.x - k.low.x) as usize;
    let inner = all_but_one(n);
    let above_y = k.low.y < y;
    let above_z = k.low.z < z;
    let inner_y = y != k.high.y - 1;
    let inner_z = z != k.high.z - 1;
    let along = pick(k.max_plane.x, n, inner);
    OwnedEdges {
        x: pick(owns(above_y, above_z, true, true), along, 0),
        y: pick(owns(above_z, true, k.max_plane.y, inner_y), inner, 0),
        z: pick(owns(true, above_y, k.max_plane.z, inner_z), inner, 0),
    }
}

// Of a row's n cells with `all` changes along an axis, those of the owned edges: of all, of none, or of all but the one with `left` changes.
fn owned_part(all: u32, left: u32, n: usize, own: usize) -> usize
    requires { left ≤ all }
    ensures { result ≡ owned_part all left n own }
{
    if own == 0 {
        return 0;
    }
    if own == n {
        return all as usize;
    }
    (all - left) as usize
}

// A cell between two kept rows, by the codes of its near points from p on and of its far ones from q on: whether it is a surface cell, and which of its
// x, y and z edges has exactly one negative end.
fn cell_codes(codes: &[u32], p: usize, q: usize) -> CodeCounts
    requires { SmallFrom codes.now p 2 × SmallFrom codes.now q 2 }
    ensures { result ≡ cell_codes codes.now p q }
{
    let a = codes[p];
    let b = codes[p + 1];
    let c = codes[q];
    let d = codes[q + 1];
    let sum = (a + b) + (c + d);
    CodeCounts {
        surface: counted(row_signs::mixed_code(sum)),
        x: counted((a + b) % 2 == 1),
        y: counted((a + c) % 2 == 1),
        z: counted((a + a / 8) % 2 == 1),
    }
}

// The same of n cells in a row.
fn count_codes(codes: &[u32], here: usize, there: usize, n: usize) -> CodeCounts
    requires n_bound { n < 1024 }
    requires small_from { SmallFrom codes.now here (n + 1) × SmallFrom codes.now there (n + 1) }
    ensures { result ≡ counted_codes codes.now here there n }
{
    let mut surface = 0u32;
    let mut x = 0u32;
    let mut y = 0u32;
    let mut z = 0u32;
    for j in 0usize..n {
        let cell = cell_codes(codes, here + j, there + j);
        surface += cell.surface;
        x += cell.x;
        y += cell.y;
        z += cell.z;
    }
    CodeCounts { surface, x, y, z }
}

// The row (y, z) of cells by the codes of its near points, which stand from `here` on, and of its far ones, from `there` on. The x edge that may not be
// owned is the last cell's; the y and z edges that are not are the first's.
fn count_kept(codes: &[u32], here: usize, there: usize, k: Block, y: u32, z: u32) -> Tally
    requires x_le_x { (k.low.x ≤ k.high.x) × ((y < k.high.y) × (z < k.high.z)) }
    requires k_bound { row_points k ≤ 1024 }
    requires small_from { SmallFrom codes.now here (row_points k) × SmallFrom codes.now there (row_points k) }
    ensures { result ≡ kept_tally codes.now here there (row_length (box_of k)) (owned_edges (box_of k) (flags_of k) y z) }
{
    let n = (k.high.x - k.low.x) as usize;
    if n == 0 {
        return Tally::NONE;
    }
    let own = owned_edges(k, y, z);
    let all = count_codes(codes, here, there, n);
    let first = cell_codes(codes, here, there);
    let last = cell_codes(codes, here + (n - 1), there + (n - 1));
    let along_x = owned_part(all.x, last.x, n, own.x);
    let along_y = owned_part(all.y, first.y, n, own.y);
    let along_z = owned_part(all.z, first.z, n, own.z);
    let vertices = all.surface as usize;
    let flat = along_x + along_y;
    let edges = flat + along_z;
    let kept_indices = 6 * edges;
    Tally {
        vertices,
        indices: kept_indices,
    }
}

// The same, given how many of the points of the row's cells are negative: where none are, or all, there is nothing to count.
fn kept_where_mixed(
    codes: &[u32],
    here: usize,
    there: usize,
    k: Block,
    y: u32,
    z: u32,
    negative_points: usize,
) -> Tally
    requires x_le_x { (k.low.x ≤ k.high.x) × ((y < k.high.y) × (z < k.high.z)) }
    requires k_bound { row_points k ≤ 1024 }
    requires small_from { SmallFrom codes.now here (row_points k) × SmallFrom codes.now there (row_points k) }
    ensures { result ≡ kept_where_mixed codes.now here there k y z negative_points }
{
    if row_signs::one_sign(k, negative_points) {
        return Tally::NONE;
    }
    count_kept(codes, here, there, k, y, z)
}

fn count_row<D: Distance>(lower: &[D], upper: &[D], k: Block, y: u32, z: u32) -> Tally
    requires in_layers { InLayers (D.floats lower.now) (D.floats upper.now) k z }
    requires y_le_y { (k.low.y ≤ y) × (y < k.high.y) }
    ensures { result ≡ tally_of (two_layers (D.floats lower.now) (D.floats upper.now) k z) (box_of k) (flags_of k) (row_cells (box_of k) z y) }
{
    let row = k.dims.x as usize;
    let n = (k.high.x - k.low.x) as usize;
    let at = (k.low.x as usize) + row * (y as usize);
    let next = at + 1;
    let own = owned_edges(k, y, z);
    let surface = surface_cells(lower, upper, at, row, n);
    let x_low = run(lower, at, own.x);
    let x_high = run(lower, next, own.x);
    let along_x = changes(x_low, x_high);
    let y_low = run(lower, next, own.y);
    let y_high = run(lower, next + row, own.y);
    let along_y = changes(y_low, y_high);
    let z_low = run(lower, next, own.z);
    let z_high = run(upper, next, own.z);
    let along_z = changes(z_low, z_high);
    let vertices = surface as usize;
    let x_faces = along_x as usize;
    let y_faces = along_y as usize;
    let z_faces = along_z as usize;
    let flat_faces = x_faces + y_faces;
    let faces = flat_faces + z_faces;
    let indices = 6 * faces;
    Tally { vertices, indices }
}

// The row counted from the distances, given how many of the points of its cells are negative.
fn count_where_mixed<D: Distance>(
    lower: &[D],
    upper: &[D],
    k: Block,
    y: u32,
    z: u32,
    negative_points: usize,
) -> Tally
    requires in_layers { InLayers (D.floats lower.now) (D.floats upper.now) k z }
    requires y_le_y { (k.low.y ≤ y) × (y < k.high.y) }
    requires negative_points_value { negative_points ≡ cells_negatives (D.floats lower.now) (D.floats upper.now) k y }
    ensures { result ≡ tally_of (two_layers (D.floats lower.now) (D.floats upper.now) k z) (box_of k) (flags_of k) (row_cells (box_of k) z y) }
{
    if row_signs::one_sign(k, negative_points) {
        return Tally::NONE;
    }
    count_row(lower, upper, k, y, z)
}

// The layer z of cells where a row has at most 1,024 points. The codes of two rows of points stand in the two halves of a list: a row is read to the half
// of the one before the last.
fn count_short<D: Distance>(lower: &[D], upper: &[D], k: Block, z: u32) -> Tally
    requires in_layers { InLayers (D.floats lower.now) (D.floats upper.now) k z }
    requires k_bound { row_points k ≤ 1024 }
    ensures { result ≡ tally_of (two_layers (D.floats lower.now) (D.floats upper.now) k z) (box_of k) (flags_of k) (layer_cells (box_of k) z) }
{
    let from = k.low.y;
    let end = k.high.y;
    let mut vertices = 0usize;
    let mut indices = 0usize;
    let mut codes = [0u32; 2048];
    let mut here = 0usize;
    let mut near = row_signs::read_row(lower, upper, k, from, &mut codes, 0);
    for y in from..end {
        let there = 1024 - here;
        let far = row_signs::read_row(lower, upper, k, y + 1, &mut codes, there);
        let one = kept_where_mixed(&codes, here, there, k, y, z, near + far);
        vertices += one.vertices;
        indices += one.indices;
        near = far;
        here = there;
    }
    Tally { vertices, indices }
}

// The same where a row has more points, of which nothing is kept.
fn count_long<D: Distance>(lower: &[D], upper: &[D], k: Block, z: u32) -> Tally
    requires { InLayers (D.floats lower.now) (D.floats upper.now) k z }
    ensures { result ≡ tally_of (two_layers (D.floats lower.now) (D.floats upper.now) k z) (box_of k) (flags_of k) (layer_cells (box_of k) z) }
{
    let from = k.low.y;
    let end = k.high.y;
    let mut vertices = 0usize;
    let mut indices = 0usize;
    let mut codes = [0u32; 1024];
    let mut near_row = row_signs::read_row(lower, upper, k, from, &mut codes, 0);
    for y in from..end {
        let far_row = row_signs::read_row(lower, upper, k, y + 1, &mut codes, 0);
        let one = count_where_mixed(lower, upper, k, y, z, near_row + far_row);
        vertices += one.vertices;
        indices += one.indices;
        near_row = far_row;
    }
    Tally { vertices, indices }
}

// The layer z of cells, from the distances of its lower and its upper points.
pub fn count_layer<D: Distance>(lower: &[D], upper: &[D], k: Block, z: u32) -> Tally
    requires { InLayers (D.floats lower.now) (D.floats upper.now) k z }
    ensures { result ≡ tally_of (two_layers (D.floats lower.now) (D.floats upper.now) k z) (box_of k) (flags_of k) (layer_cells (box_of k) z) }
{
    let points = ((k.high.x - k.low.x) as usize) + 1;
    if points <= 1024 {
        return count_short(lower, upper, k, z);
    }
    count_long(lower, upper, k, z)
}

// The layer z of a whole grid, whose parts are lent.
fn count_part<D: Distance>(sdf: &[D], k: Block, z: u32) -> Tally
    requires inside { Inside (D.floats sdf.now) k }
    requires z_le_z { (k.low.z ≤ z) × (z < k.high.z) }
    ensures { result ≡ tally_of (field_of (D.floats sdf.now) k) (box_of k) (flags_of k) (layer_cells (box_of k) z) }
{
    let (lower, upper) = layers_at(sdf, k, z);
    count_layer(lower, upper, k, z)
}

// One walk serves both: a layer of points is tried just after the cells below it are counted, while it is at hand.
pub fn count_box<D: Distance>(sdf: &[D], k: Block) -> Findings
    requires { Inside (D.floats sdf.now) k }
    ensures bad_value { result.bad ≡ bad_distance (field_of (D.floats sdf.now) k) (box_of k) }
    ensures result_value { counts result ≡ tally_of (field_of (D.floats sdf.now) k) (box_of k) (flags_of k) (cells (box_of k)) }
{
    let from = k.low.z;
    let end = k.high.z;
    let mut bad = grid::scan::bad_layer(sdf, k, from);
    let mut vertices = 0usize;
    let mut indices = 0usize;
    for z in from..end {
        let one = count_part(sdf, k, z);
        bad = grid::scan::either(bad, grid::scan::bad_layer(sdf, k, z + 1));
        vertices += one.vertices;
        indices += one.indices;
    }
    Findings {
        bad,
        vertices,
        indices,
    }
}
