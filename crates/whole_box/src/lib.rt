// The whole box, a layer of cells after the other: each layer's vertices, and then its faces. The layer's part of the grid, of the map and of the
// lists of vertices are lent to the two functions that know one layer alone.
#![tactic(auto)]

ghost use Rattle.std.specs.Prelude.{◌≡◌, ◌+◌, ◌-◌, ◌*◌, ◌<◌, ◌≤◌, length, take, drop};
ghost use Rattle.std.proofs.lemmas.List.Edits.{sets};
ghost use Rattle.lists.specs.Lists.{placed};
ghost use Rattle.rules.specs.Vertices.{layer_vertices};
ghost use Rattle.rules.specs.Faces.{layer_indices};
ghost use Rattle.rules.specs.Call.{written};
ghost use Rattle.grid.specs.Block.{point, box_of, flags_of, field_of, call_of};
ghost use Rattle.grid.specs.Inside.{Inside};
ghost use Rattle.layer_vertices.specs.Marked.{Room};
ghost use Rattle.layer_vertices.specs.Lent.{lists_given, lists_before, lists_after};
ghost use Rattle.whole_box.specs.LentLists.{buffers_given, buffers_before, buffers_after, Roomy};
ghost use Rattle.whole_box.specs.Layers.{layer_marked, last_at, InMap, Stands, Lendable};

use grid::Block;
use grid::lent::layers_at;
use grid::values::Distance;
use layer_faces::Firsts;
use layer_vertices::Next;

// How many vertices and indices are written, and how many vertices there were when the last layer began.
#[derive(Clone, Copy)]
pub struct Made {
    pub vertices: usize,
    pub indices: usize,
    pub below: usize,
}

// A part of a list, from one place to another: a call costs the proof of a function that lends many parts less than each part's own arithmetic.
fn part<T>(list: &[T], from: usize, to: usize) -> &[T]
    requires { Lendable from to (length list.now) }
    ensures { result.now ≡ take (to - from) (drop from list.now) }
{
    &list[from..to]
}

// ---- One layer.

// The vertices of the layer z.
fn mark_part<D: Distance>(
    sdf: &[D],
    k: Block,
    z: u32,
    first: usize,
    positions: &mut [f32],
    normals: &mut [f32],
    cells: &mut [u32],
    strides: &mut [u32],
    crossings: &mut [u8],
    map: &mut [u32],
) -> usize
    requires inside { Inside (D.floats sdf.now) k }
    requires z_le_z { (k.low.z ≤ z) × (z < k.high.z) }
    requires map_in_bounds { length (D.floats sdf.now) ≤ length map.old }
    requires room { Room (record { place = first; number = first }) (length (layer_vertices (field_of (D.floats sdf.now) k) (box_of k) z))
        (lists_given positions normals cells strides crossings map) }
    ensures map_value { lists_after positions normals cells strides crossings map
        ≡ layer_marked (field_of (D.floats sdf.now) k) (box_of k) z first (lists_before positions normals cells strides crossings map) }
    ensures value { result ≡ length (layer_vertices (field_of (D.floats sdf.now) k) (box_of k) z) }
{
    let plane = (k.dims.x as usize) * (k.dims.y as usize);
    let start = plane * (z as usize);
    let end = start + plane;
    let (lower, upper) = layers_at(sdf, k, z);
    let number = first as u32;
    let next = Next {
        place: first,
        number,
    };
    layer_vertices::mark_layer(
        lower,
        upper,
        k,
        z,
        next,
        positions,
        normals,
        cells,
        strides,
        crossings,
        &mut map[start..end],
    )
}

// Where the part of the map of the layer below begins: for the first layer of the box, which has none below it, where the layer itself begins.
fn part_below(low: u32, z: u32, start: usize, plane: usize) -> usize
    requires { low < z → plane ≤ start }
    ensures { (low < z → result ≡ start - plane) × (result ≤ start) }
{
    if low < z {
        return start - plane;
    }
    start
}

// Its faces. No face of the first layer of the box needs one below it, and an empty part is lent.
fn face_part<D: Distance>(
    sdf: &[D],
    k: Block,
    z: u32,
    made: Made,
    count: usize,
    cells: &[u32],
    map: &[u32],
    positions: &[f32],
    indices: &mut [u32],
) -> usize
    requires inside { Inside (D.floats sdf.now) k }
    requires z_le_z { (k.low.z ≤ z) × (z < k.high.z) }
    requires map_in_bounds { length (D.floats sdf.now) ≤ length map.now }
    requires count_value { count ≡ length (layer_vertices (field_of (D.floats sdf.now) k) (box_of k) z) }
    requires stands { Stands (field_of (D.floats sdf.now) k) (box_of k) z made.vertices made.below cells.now map.now positions.now }
    requires z_in_bounds { made.indices + length (layer_indices (field_of (D.floats sdf.now) k) (box_of k) (flags_of k) made.vertices z) ≤ length indices.old }
    ensures indices_after { indices.new ≡ sets indices.old made.indices
        (layer_indices (field_of (D.floats sdf.now) k) (box_of k) (flags_of k) made.vertices z) }
    ensures value { result ≡ length (layer_indices (field_of (D.floats sdf.now) k) (box_of k) (flags_of k) made.vertices z) }
{
    let plane = (k.dims.x as usize) * (k.dims.y as usize);
    let start = plane * (z as usize);
    let end = start + plane;
    let (lower, upper) = layers_at(sdf, k, z);
    let under = part_below(k.low.z, z, start, plane);
    let own = part(map, start, end);
    let beneath = part(map, under, start);
    let below = 3 * made.below;
    let here = 3 * made.vertices;
    let last = here + 3 * count;
    let number = made.vertices as u32;
    let number_below = made.below as u32;
    let first = Firsts {
        here: number,
        below: number_below,
    };
    layer_faces::face_layer(
        lower,
        upper,
        k,
        z,
        first,
        part(cells, here, last),
        own,
        part(positions, here, last),
        beneath,
        part(positions, below, here),
        indices,
        made.indices,
    )
}

// The box's last layer, which has no cells: its points' entries.
fn clear_part(k: Block, map: &mut [u32])
    requires { InMap map.old k }
    ensures { map.new ≡ placed (last_at (point k.dims) (box_of k)) 0 map.old }
{
    let plane = (k.dims.x as usize) * (k.dims.y as usize);
    let start = plane * (k.high.z as usize);
    let end = start + plane;
    layer_vertices::clear_layer(k, &mut map[start..end]);
}

// The whole box, layer after layer, from no vertex and no index, and the last layer of points, of a flat box too: all that document 01 and request 7 of
// document 02 say of an answer 0.
pub fn mesh_box<D: Distance>(
    sdf: &[D],
    k: Block,
    positions: &mut [f32],
    normals: &mut [f32],
    cells: &mut [u32],
    strides: &mut [u32],
    crossings: &mut [u8],
    map: &mut [u32],
    indices: &mut [u32],
)
    requires inside { Inside (D.floats sdf.now) k }
    requires roomy { Roomy (field_of (D.floats sdf.now) k) (box_of k) (flags_of k) (length (D.floats sdf.now))
        (buffers_given positions normals cells strides crossings map indices) }
    ensures { buffers_after positions normals cells strides crossings map indices
        ≡ written (call_of (D.floats sdf.now) k) (buffers_before positions normals cells strides crossings map indices) }
{
    let from = k.low.z;
    let end = k.high.z;
    let mut state = Made {
        vertices: 0,
        indices: 0,
        below: 0,
    };
    for z in from..end {
        let made = state;
        let count = mark_part(
            sdf,
            k,
            z,
            made.vertices,
            positions,
            normals,
            cells,
            strides,
            crossings,
            map,
        );
        let used = face_part(sdf, k, z, made, count, cells, map, positions, indices);
        state = Made {
            vertices: made.vertices + count,
            indices: made.indices + used,
            below: made.vertices,
        };
    }
    clear_part(k, map);
}
