// The vertices of one layer's surface cells: position, normal and number of crossings of each, the Rust's estimate_surface_in_cube. 32 cells are
// taken at a time through local arrays, their corner values side by side, so that the compiler works out several cells at once. The entries of a
// batch past its last cell are worked out too, and written nowhere.
#![tactic(auto)]

ghost use Rattle.std.specs.Prelude.{◌≡◌, ◌∷◌, [], map, ◌+◌, ◌*◌, ◌≤◌, ◌<◌, min, length, get_or};
ghost use Rattle.std.proofs.lemmas.List.Edits.{sets};
ghost use Rattle.lists.specs.Lists.{up_to};
ghost use Rattle.rules.specs.Cell.{position};
ghost use Rattle.rules.specs.Vertices.{layer_vertices, vertex_position, vertex_normal, vertex_crossings};
ghost use Rattle.rules.specs.Call.{flat_vectors, flat_points};
ghost use Rattle.cube.specs.AsRules.{vector, grid_point};
ghost use Rattle.grid.specs.Block.{box_of};
ghost use Rattle.grid.specs.Corners.{eight_of};
ghost use Rattle.grid.specs.Layers.{InLayers};
ghost use Rattle.grid.specs.Values.{between};
ghost use Rattle.layer_estimates.specs.Estimates.{RoomFor, lists, written, estimated, Batch, Gathered, Solved, vector_at, eight_at, vertex_at, stored, eight_places, three_places};

use cube::Point;
use grid::Block;
use grid::corners::Side;
use grid::values::Distance;

// The corner values of a cell, by its two sides in x, put into the lane j: corner i stands at 32 i + j.
fn put_corners(corners: &mut [f32; 256], j: usize, low: Side, high: Side)
    requires { j < 32 }
    ensures { corners.new ≡ stored corners.old (eight_places j) (eight_of low high) }
{
    corners[j] = low.a;
    corners[32 + j] = high.a;
    corners[64 + j] = low.b;
    corners[96 + j] = high.b;
    corners[128 + j] = low.c;
    corners[160 + j] = high.c;
    corners[192 + j] = low.d;
    corners[224 + j] = high.d;
}

// The eight corner values of the cells `from` to `from + n` of the list, corner by corner: corner i of the j-th stands at 32 i + j.
fn gather<D: Distance>(
    lower: &[D],
    upper: &[D],
    row: usize,
    cells: &[u32],
    from: usize,
    n: usize,
    corners: &mut [f32; 256],
)
    requires batch { Batch (D.floats lower.now) (D.floats upper.now) row cells.now from n }
    requires corners_len { length corners.old ≡ 256 }
    ensures { Gathered (D.floats lower.now) (D.floats upper.now) row cells.now from corners.new n }
{
    for j in 0usize..n {
        let c = 3 * (from + j);
        let at = (cells[c] as usize) + row * (cells[c + 1] as usize);
        let low = grid::corners::side_between(lower, upper, at, row);
        let high = grid::corners::side_between(lower, upper, at + 1, row);
        put_corners(corners, j, low, high);
    }
}

// The corner values of the lane j.
fn corners_at(corners: &[f32; 256], j: usize) -> [f32; 8]
    requires { j < 32 }
    ensures { result ≡ eight_at corners.now j }
{
    [
        corners[j],
        corners[32 + j],
        corners[64 + j],
        corners[96 + j],
        corners[128 + j],
        corners[160 + j],
        corners[192 + j],
        corners[224 + j],
    ]
}

// A vector put into the lane j, axis by axis, and one read from there.
fn put_lane(list: &mut [f32; 96], j: usize, v: Point)
    requires { j < 32 }
    ensures { list.new ≡ stored list.old (three_places j) (v.x ∷ v.y ∷ v.z ∷ []) }
{
    list[j] = v.x;
    list[32 + j] = v.y;
    list[64 + j] = v.z;
}

fn lane(list: &[f32; 96], j: usize) -> Point
    requires { j < 32 }
    ensures { vector result ≡ vector_at list.now j }
{
    Point {
        x: list[j],
        y: list[32 + j],
        z: list[64 + j],
    }
}

// The centroid and the gradient of each of the 32, axis by axis, and the number of its crossings.
fn solve(
    corners: &[f32; 256],
    centroids: &mut [f32; 96],
    gradients: &mut [f32; 96],
    counts: &mut [u8; 32],
)
    requires { (length centroids.old ≡ 96) × ((length gradients.old ≡ 96) × (length counts.old ≡ 32)) }
    ensures { Solved corners.now centroids.new gradients.new counts.new 32 }
{
    for j in 0usize..32 {
        let d = corners_at(corners, j);
        let average = cube::centroid_of_edge_intersections(&d);
        let s = average.point;
        put_lane(centroids, j, s);
        put_lane(gradients, j, cube::sdf_gradient(&d, s));
        counts[j] = average.crossings;
    }
}

// Where the vertex of the cell whose numbers stand at c lies.
fn position_at(cells: &[u32], c: usize, s: Point) -> Point
    requires { c + 2 < length cells.now }
    ensures { vector result ≡ position (grid_point (get_or cells.now c 0) (get_or cells.now (c + 1) 0) (get_or cells.now (c + 2) 0)) (vector s) }
{
    cube::position_in(cells[c], cells[c + 1], cells[c + 2], s)
}

// The first n of them, to the lists from a place on.
fn put(
    cells: &[u32],
    from: usize,
    n: usize,
    centroids: &[f32; 96],
    gradients: &[f32; 96],
    counts: &[u8; 32],
    place: usize,
    positions: &mut [f32],
    normals: &mut [f32],
    crossings: &mut [u8],
)
    requires n_bound { (n ≤ 32) × (3 * (from + n) ≤ length cells.now) }
    requires room_for { RoomFor (place + n) positions.old normals.old crossings.old }
    ensures { lists positions.new normals.new crossings.new
        ≡ written place (map (vertex_at cells.now from centroids.now gradients.now counts.now) (up_to 0 n))
        (lists positions.old normals.old crossings.old) }
{
    for j in 0usize..n {
        let c = 3 * (from + j);
        let at = 3 * (place + j);
        let s = lane(centroids, j);
        stores::put_vector(positions, at, position_at(cells, c, s));
        stores::put_vector(normals, at, lane(gradients, j));
        crossings[place + j] = counts[j];
    }
}

// n cells, at most 32.
fn estimate_some<D: Distance>(
    lower: &[D],
    upper: &[D],
    row: usize,
    cells: &[u32],
    from: usize,
    n: usize,
    place: usize,
    positions: &mut [f32],
    normals: &mut [f32],
    crossings: &mut [u8],
)
    requires batch { Batch (D.floats lower.now) (D.floats upper.now) row cells.now from n }
    requires room_for { RoomFor (place + n) positions.old normals.old crossings.old }
    ensures { lists positions.new normals.new crossings.new
        ≡ written place (map (estimated (D.floats lower.now) (D.floats upper.now) row cells.now) (up_to from (from + n)))
        (lists positions.old normals.old crossings.old) }
{
    let mut corners = [0.0f32; 256];
    let mut centroids = [0.0f32; 96];
    let mut gradients = [0.0f32; 96];
    let mut counts = [0u8; 32];
    gather(lower, upper, row, cells, from, n, &mut corners);
    solve(&corners, &mut centroids, &mut gradients, &mut counts);
    put(
        cells, from, n, &centroids, &gradients, &counts, place, positions, normals, crossings,
    );
}

// All cells of the layer z, which `cells` holds in their order and nothing else: their vertices to the lists from a place on.
pub fn estimate_layer<D: Distance>(
    lower: &[D],
    upper: &[D],
    k: Block,
    z: u32,
    cells: &[u32],
    place: usize,
    positions: &mut [f32],
    normals: &mut [f32],
    crossings: &mut [u8],
)
    requires in_layers { InLayers (D.floats lower.now) (D.floats upper.now) k z }
    requires cells_value { cells.now ≡ flat_points (layer_vertices (between D.floats lower.now upper.now k z) (box_of k) z) }
    requires room_for { RoomFor (place + length (layer_vertices (between D.floats lower.now upper.now k z) (box_of k) z))
        positions.old normals.old crossings.old }
    ensures positions_after { let g = between D.floats lower.now upper.now k z in
        positions.new ≡ sets positions.old (3 * place) (flat_vectors (map (vertex_position g) (layer_vertices g (box_of k) z))) }
    ensures normals_after { let g = between D.floats lower.now upper.now k z in
        normals.new ≡ sets normals.old (3 * place) (flat_vectors (map (vertex_normal g) (layer_vertices g (box_of k) z))) }
    ensures crossings_after { let g = between D.floats lower.now upper.now k z in
        crossings.new ≡ sets crossings.old place (map (vertex_crossings g) (layer_vertices g (box_of k) z)) }
{
    let row = k.dims.x as usize;
    let count = cells.len() / 3;
    for done in (0..count).step_by(32) {
        let n = (count - done).min(32);
        estimate_some(
            lower,
            upper,
            row,
            cells,
            done,
            n,
            place + done,
            positions,
            normals,
            crossings,
        );
    }
}
