// The vertices of one layer of cells, from the two layers of distances that hold its corners: the Rust's estimate_surface, a layer at a time. First
// the surface cells are found, row by row, with the entry of each point of the box in the layer's part of the map; then their vertices are worked out,
// from the cells just listed. All go to the lent lists from a place on.
#![tactic(auto)]

ghost use Rattle.std.specs.Prelude.{◌≡◌, ◌&&◌, ◌∷◌, [], map as each, ◌+◌, ◌*◌, ◌<◌, ◌≤◌, min, leb, length, set, take, drop};
ghost use Rattle.std.proofs.lemmas.List.Edits.{sets};
ghost use Rattle.lists.specs.Lists.{placed};
ghost use Rattle.rules.specs.Vertices.{row_cells, layer_vertices, vertex_position, vertex_normal, vertex_crossings};
ghost use Rattle.rules.specs.Grid.{index};
ghost use Rattle.rules.specs.Call.{flat_vectors, flat_points};
ghost use Rattle.grid.specs.Block.{point, box_of};
ghost use Rattle.grid.specs.Inside.{PointInside};
ghost use Rattle.grid.specs.Layers.{in_layer, InLayers};
ghost use Rattle.grid.specs.Values.{between};
ghost use Rattle.row_signs.specs.Signs.{row_length, row_start, cells_negatives};
ghost use Rattle.row_signs.specs.Codes.{Kept, SmallFrom, mixed_code};
ghost use Rattle.layer_estimates.specs.Estimates.{RoomFor};
ghost use Rattle.layer_vertices.specs.Marked.{marked, last_entry, Room, InPart};
ghost use Rattle.layer_vertices.specs.Cells.{points_of, has_vertex, blanked, found, Passes, RoomToFind, layer_found, class_of, classes, code_classes, none_marked, Numbering, Numbered};
ghost use Rattle.layer_vertices.specs.Lent.{lists_given, lists_before, lists_after, finds_given, finds_before, finds_after};

use grid::values::Distance;
use grid::{Block, Extent};

// The map's entry of a cell without a vertex, and of a point of the box that is no cell.
pub const NULL_VERTEX: u32 = 4294967295;

// What stands there of a surface cell between its classing and its number: anything but NULL_VERTEX.
const MARK: u32 = 0;

// Where the next vertex goes: its place in the lists, and the number that it gets. In a call for the whole box the two are the same; who has the box
// layer by layer begins each layer's lists anew, while the numbers run on.
#[derive(Clone, Copy)]
pub struct Next {
    pub place: usize,
    pub number: u32,
}

// Its cell and its stride, at a place of their lists.
fn put_cell(dims: Extent, c: Extent, place: usize, cells: &mut [u32], strides: &mut [u32])
    requires point_inside { PointInside (point dims) (point c) }
    requires place_in_bounds { (3 * place + 2 < length cells.old) × (place < length strides.old) }
    ensures cells_after { cells.new ≡ sets cells.old (3 * place) (c.x ∷ c.y ∷ c.z ∷ []) }
    ensures strides_after { strides.new ≡ set strides.old place (index (point dims) (point c)) }
{
    let stride = grid::place::linearize(dims, c);
    strides[place] = stride as u32;
    stores::put_three(cells, 3 * place, c.x, c.y, c.z);
}

// ---- A row of cells is classed first, into its own entries of the map, by a loop that neither branches nor stops early; then only the cells that
// it marked are visited.

// The entry of a cell: a mark where it is a surface cell, or no vertex.
fn class_entry(surface: bool) -> u32
    ensures { result ≡ class_of surface }
{
    if surface { MARK } else { NULL_VERTEX }
}

// n cells in a row, `at` being the place of the first one's lowest corner. A cell's upper x side is the next one's lower one: its negatives are counted once, and carried.
fn class_row<D: Distance>(
    lower: &[D],
    upper: &[D],
    at: usize,
    row: usize,
    n: usize,
    map: &mut [u32],
)
    requires row_in_bounds { (at + n + row < length (D.floats lower.now)) × (at + n + row < length (D.floats upper.now)) }
    requires n_in_bounds { at + n ≤ length map.old }
    ensures { map.new
        ≡ sets map.old at (classes (D.floats lower.now) (D.floats upper.now) at row n) }
{
    let mut low = grid::signs::side_negatives(lower, upper, at, row);
    for j in 0usize..n {
        let high = grid::signs::side_negatives(lower, upper, at + j + 1, row);
        map[at + j] = class_entry(cube::some_of_eight(low + high));
        low = high;
    }
}

// n cells between two rows of points whose codes are kept, the first one's entry being at `at`.
fn class_codes(codes: &[u32], here: usize, there: usize, at: usize, n: usize, map: &mut [u32])
    requires small_from { SmallFrom codes.now here (n + 1) × SmallFrom codes.now there (n + 1) }
    requires n_in_bounds { at + n ≤ length map.old }
    ensures { map.new ≡ sets map.old at (code_classes codes.now here there n) }
{
    for j in 0usize..n {
        let near = codes[here + j] + codes[here + j + 1];
        let far = codes[there + j] + codes[there + j + 1];
        map[at + j] = class_entry(row_signs::mixed_code(near + far));
    }
}

// The row y of cells, by the codes of its two rows of points where these are kept.
fn class_points<D: Distance>(
    lower: &[D],
    upper: &[D],
    k: Block,
    y: u32,
    codes: &[u32],
    here: usize,
    there: usize,
    map: &mut [u32],
)
    requires x_le_x { (k.low.x ≤ k.high.x) × (row_start k y + row_length (box_of k) ≤ length map.old) }
    requires x_in_bounds { (row_start k y + row_length (box_of k) + k.dims.x < length (D.floats lower.now))
        × (row_start k y + row_length (box_of k) + k.dims.x < length (D.floats upper.now)) }
    requires here_in_bounds { (here + 1024 ≤ length codes.now) × (there + 1024 ≤ length codes.now) }
    requires kept { Kept (D.floats lower.now) (D.floats upper.now) k y here codes.now }
    requires kept_2 { Kept (D.floats lower.now) (D.floats upper.now) k (y + 1) there codes.now }
    ensures { map.new
        ≡ sets map.old (row_start k y)
        (classes (D.floats lower.now) (D.floats upper.now) (row_start k y) k.dims.x (row_length (box_of k))) }
{
    let row = k.dims.x as usize;
    let at = (k.low.x as usize) + row * (y as usize);
    let n = (k.high.x - k.low.x) as usize;
    if n < 1024 {
        class_codes(codes, here, there, at, n, map);
        return;
    }
    class_row(lower, upper, at, row, n, map);
}

// A cell that is marked gets the next number.
fn number_cell(
    dims: Extent,
    c: Extent,
    at: usize,
    next: Next,
    cells: &mut [u32],
    strides: &mut [u32],
    map: &mut [u32],
) -> Next
    requires { Numbering (point dims) (point c) at 1 next (finds_given cells strides map) }
    ensures { Numbered (point dims) (point c) 1 next (finds_before cells strides map) result (finds_after cells strides map) }
{
    if map[at] == NULL_VERTEX {
        return next;
    }
    let place = next.place;
    put_cell(dims, c, place, cells, strides);
    map[at] = next.number;
    Next {
        place: place + 1,
        number: next.number + 1,
    }
}

// The marked ones of n cells in a row, c being the first.
fn number_some(
    dims: Extent,
    c: Extent,
    at: usize,
    n: u32,
    next: Next,
    cells: &mut [u32],
    strides: &mut [u32],
    map: &mut [u32],
) -> Next
    requires { Numbering (point dims) (point c) at n next (finds_given cells strides map) }
    ensures { Numbered (point dims) (point c) n next (finds_before cells strides map) result (finds_after cells strides map) }
{
    let mut state = next;
    for j in 0u32..n {
        let p = Extent {
            x: c.x + j,
            y: c.y,
            z: c.z,
        };
        state = number_cell(dims, p, at + (j as usize), state, cells, strides, map);
    }
    state
}

// None of eight entries is a mark. Tested at once, without a branch.
fn none_of_eight(map: &[u32], at: usize) -> bool
    requires { at + 8 ≤ length map.now }
    ensures { result ≡ none_marked map.now at 8 }
{
    map[at..at + 8]
        .iter()
        .fold(true, |none, &e| none & (e == NULL_VERTEX))
}

// At most eight entries of which none is a mark, as far as that is seen at once: yes is said of eight alone.
fn none_of(map: &[u32], at: usize, n: u32) -> bool
    requires { (n ≤ 8) × (at + n ≤ length map.now) }
    ensures { result ≡ (leb 8 n && none_marked map.now at n) }
{
    if n < 8 {
        return false;
    }
    none_of_eight(map, at)
}

// The marked ones of at most eight cells in a row, which are left at once where that is seen.
fn number_eight(
    dims: Extent,
    c: Extent,
    at: usize,
    n: u32,
    next: Next,
    cells: &mut [u32],
    strides: &mut [u32],
    map: &mut [u32],
) -> Next
    requires n_bound { n ≤ 8 }
    requires numbering { Numbering (point dims) (point c) at n next (finds_given cells strides map) }
    ensures { Numbered (point dims) (point c) n next (finds_before cells strides map) result (finds_after cells strides map) }
{
    if none_of(map, at, n) {
        return next;
    }
    number_some(dims, c, at, n, next, cells, strides, map)
}

// The marked ones of a row's n cells, eight at a time.
fn number_row(
    dims: Extent,
    c: Extent,
    at: usize,
    n: u32,
    next: Next,
    cells: &mut [u32],
    strides: &mut [u32],
    map: &mut [u32],
) -> Next
    requires { Numbering (point dims) (point c) at n next (finds_given cells strides map) }
    ensures { Numbered (point dims) (point c) n next (finds_before cells strides map) result (finds_after cells strides map) }
{
    let mut state = next;
    for j in (0..n).step_by(8) {
        let m = (n - j).min(8);
        let p = Extent {
            x: c.x + j,
            y: c.y,
            z: c.z,
        };
        state = number_eight(dims, p, at + (j as usize), m, state, cells, strides, map);
    }
    state
}

// The row y of the layer z. The row's last point is no cell.
fn find_row<D: Distance>(
    lower: &[D],
    upper: &[D],
    k: Block,
    y: u32,
    z: u32,
    codes: &[u32],
    here: usize,
    there: usize,
    next: Next,
    cells: &mut [u32],
    strides: &mut [u32],
    map: &mut [u32],
) -> Next
    requires in_layers { InLayers (D.floats lower.now) (D.floats upper.now) k z }
    requires y_le_y { (k.low.y ≤ y) × (y < k.high.y) }
    requires here_in_bounds { (here + 1024 ≤ length codes.now) × (there + 1024 ≤ length codes.now) }
    requires kept { Kept (D.floats lower.now) (D.floats upper.now) k y here codes.now }
    requires kept_2 { Kept (D.floats lower.now) (D.floats upper.now) k (y + 1) there codes.now }
    requires high_in_bounds { in_layer (point k.dims) (point k.high) < length map.old }
    requires room_to_find { RoomToFind next (found (has_vertex (between D.floats lower.now upper.now k z) (box_of k)) (row_cells (points_of (box_of k)) z y))
        (finds_given cells strides map) }
    ensures { Passes (point k.dims) (has_vertex (between D.floats lower.now upper.now k z) (box_of k)) next
        (finds_before cells strides map) (row_cells (points_of (box_of k)) z y) result (finds_after cells strides map) }
{
    let from = k.low.x;
    let n = k.high.x - from;
    let row = k.dims.x as usize;
    let at = (from as usize) + row * (y as usize);
    let last = at + (n as usize);
    class_points(lower, upper, k, y, codes, here, there, map);
    map[last] = NULL_VERTEX;
    number_row(
        k.dims,
        Extent { x: from, y, z },
        at,
        n,
        next,
        cells,
        strides,
        map,
    )
}

// The row y of a layer's part of the map, where none of the box's points is a cell.
fn clear_row(k: Block, y: u32, map: &mut [u32])
    requires in_part { InPart map.old k }
    requires y_le_y { (k.low.y ≤ y) × (y ≤ k.high.y) }
    ensures { map.new ≡ blanked (point k.dims) (box_of k) y map.old }
{
    let from = k.low.x;
    let end = k.high.x + 1;
    let row = k.dims.x as usize;
    let at = (from as usize) + row * (y as usize);
    let n = (end - from) as usize;
    map[at..at + n].fill(NULL_VERTEX);
}

// The same, given how many of the points of the row's cells are negative: where none are, or all, there is no vertex.
fn find_where_mixed<D: Distance>(
    lower: &[D],
    upper: &[D],
    k: Block,
    y: u32,
    z: u32,
    negative_points: usize,
    codes: &[u32],
    here: usize,
    there: usize,
    next: Next,
    cells: &mut [u32],
    strides: &mut [u32],
    map: &mut [u32],
) -> Next
    requires in_layers { InLayers (D.floats lower.now) (D.floats upper.now) k z }
    requires y_le_y { (k.low.y ≤ y) × (y < k.high.y) }
    requires negative_points_value { negative_points ≡ cells_negatives (D.floats lower.now) (D.floats upper.now) k y }
    requires here_in_bounds { (here + 1024 ≤ length codes.now) × (there + 1024 ≤ length codes.now) }
    requires kept { Kept (D.floats lower.now) (D.floats upper.now) k y here codes.now }
    requires kept_2 { Kept (D.floats lower.now) (D.floats upper.now) k (y + 1) there codes.now }
    requires high_in_bounds { in_layer (point k.dims) (point k.high) < length map.old }
    requires room_to_find { RoomToFind next (found (has_vertex (between D.floats lower.now upper.now k z) (box_of k)) (row_cells (points_of (box_of k)) z y))
        (finds_given cells strides map) }
    ensures { Passes (point k.dims) (has_vertex (between D.floats lower.now upper.now k z) (box_of k)) next
        (finds_before cells strides map) (row_cells (points_of (box_of k)) z y) result (finds_after cells strides map) }
{
    if row_signs::one_sign(k, negative_points) {
        clear_row(k, y, map);
        return next;
    }
    find_row(
        lower, upper, k, y, z, codes, here, there, next, cells, strides, map,
    )
}

// The layer z of cells: its surface cells, and the entries of its points. The layer's last row has no cells.
fn find_layer<D: Distance>(
    lower: &[D],
    upper: &[D],
    k: Block,
    z: u32,
    next: Next,
    cells: &mut [u32],
    strides: &mut [u32],
    map: &mut [u32],
) -> usize
    requires in_layers { InLayers (D.floats lower.now) (D.floats upper.now) k z }
    requires high_in_bounds { in_layer (point k.dims) (point k.high) < length map.old }
    requires room_to_find { RoomToFind next (length (layer_vertices (between D.floats lower.now upper.now k z) (box_of k) z)) (finds_given cells strides map) }
    ensures map_value { finds_after cells strides map
        ≡ layer_found (between D.floats lower.now upper.now k z) (box_of k) z next (finds_before cells strides map) }
    ensures value { result ≡ length (layer_vertices (between D.floats lower.now upper.now k z) (box_of k) z) }
{
    let from = k.low.y;
    let end = k.high.y;
    let first = next.place;
    let mut codes = [0u32; 2048];
    let mut here = 0usize;
    let mut near = row_signs::read_row(lower, upper, k, from, &mut codes, 0);
    let mut state = next;
    for y in from..end {
        let there = 1024 - here;
        let far = row_signs::read_row(lower, upper, k, y + 1, &mut codes, there);
        state = find_where_mixed(
            lower,
            upper,
            k,
            y,
            z,
            near + far,
            &codes,
            here,
            there,
            state,
            cells,
            strides,
            map,
        );
        near = far;
        here = there;
    }
    clear_row(k, end, map);
    state.place - first
}

// The vertices of `count` surface cells that the list holds from a place on, at the same place of their lists.
fn estimate_part<D: Distance>(
    lower: &[D],
    upper: &[D],
    k: Block,
    z: u32,
    place: usize,
    count: usize,
    cells: &[u32],
    positions: &mut [f32],
    normals: &mut [f32],
    crossings: &mut [u8],
)
    requires in_layers { InLayers (D.floats lower.now) (D.floats upper.now) k z }
    requires count_value { count ≡ length (layer_vertices (between D.floats lower.now upper.now k z) (box_of k) z) }
    requires count_in_bounds { 3 * (place + count) ≤ length cells.now }
    requires cells_value { take (3 * count) (drop (3 * place) cells.now) ≡ flat_points (layer_vertices (between D.floats lower.now upper.now k z) (box_of k) z) }
    requires room_for { RoomFor (place + count) positions.old normals.old crossings.old }
    ensures positions_after { let g = between D.floats lower.now upper.now k z in
        positions.new ≡ sets positions.old (3 * place) (flat_vectors (each (vertex_position g) (layer_vertices g (box_of k) z))) }
    ensures normals_after { let g = between D.floats lower.now upper.now k z in
        normals.new ≡ sets normals.old (3 * place) (flat_vectors (each (vertex_normal g) (layer_vertices g (box_of k) z))) }
    ensures crossings_after { let g = between D.floats lower.now upper.now k z in
        crossings.new ≡ sets crossings.old place (each (vertex_crossings g) (layer_vertices g (box_of k) z)) }
{
    let here = 3 * place;
    let end = here + 3 * count;
    layer_estimates::estimate_layer(
        lower,
        upper,
        k,
        z,
        &cells[here..end],
        place,
        positions,
        normals,
        crossings,
    );
}

// The layer z of cells: how many vertices it has, all of them in the lists and their numbers in the layer's part of the map.
pub fn mark_layer<D: Distance>(
    lower: &[D],
    upper: &[D],
    k: Block,
    z: u32,
    next: Next,
    positions: &mut [f32],
    normals: &mut [f32],
    cells: &mut [u32],
    strides: &mut [u32],
    crossings: &mut [u8],
    map: &mut [u32],
) -> usize
    requires in_layers { InLayers (D.floats lower.now) (D.floats upper.now) k z }
    requires high_in_bounds { in_layer (point k.dims) (point k.high) < length map.old }
    requires room { Room next (length (layer_vertices (between D.floats lower.now upper.now k z) (box_of k) z))
        (lists_given positions normals cells strides crossings map) }
    ensures map_value { lists_after positions normals cells strides crossings map
        ≡ marked (between D.floats lower.now upper.now k z) (box_of k) z next (lists_before positions normals cells strides crossings map) }
    ensures value { result ≡ length (layer_vertices (between D.floats lower.now upper.now k z) (box_of k) z) }
{
    let count = find_layer(lower, upper, k, z, next, cells, strides, map);
    estimate_part(
        lower, upper, k, z, next.place, count, cells, positions, normals, crossings,
    );
    count
}

// The part of the map of the box's last layer, where no point is a cell.
pub fn clear_layer(k: Block, map: &mut [u32])
    requires { InPart map.old k }
    ensures { map.new ≡ placed (last_entry (point k.dims) (box_of k)) 0 map.old }
{
    let from = k.low.y;
    let end = k.high.y + 1;
    for y in from..end {
        clear_row(k, y, map);
    }
}
