// What a layer brings out: the vertices and faces of the cells between the kept layer below it and itself.
ghost use Rattle.std.specs.Prelude.{◌≡◌, map, ◌*◌, ◌<◌, ◌≤◌, length, take};
ghost use Rattle.std.proofs.lemmas.List.Edits.{sets};
ghost use Rattle.rules.specs.Faces.{layer_edges};
ghost use Rattle.grid.specs.Block.{box_of, flags_of};
ghost use Rattle.layer_vertices.specs.Marked.{with_map, Room};
ghost use Rattle.layer_vertices.specs.Lent.{lists_given, lists_before, lists_after};
ghost use Rattle.layer_faces.specs.Below.{indices_over, Standing};
ghost use Rattle.layers.specs.Memory.{memory, plane, half_of};
ghost use Rattle.layers.specs.Offer.{left, between, cells_at, before, new_vertices, new_first, runs_on, kept_below, new_lists, put_back, brought_out};
ghost use Rattle.layers.specs.Lent.{output_given, output_before, output_after};
ghost use Rattle.layers.specs.Ready.{Ready, Roomy};

use crate::State;
use crate::keeping::{copy, half, half_of};
use layer_faces::Firsts;
use layer_vertices::Next;

// The number of the first of so many vertices: the next one, but 0 where a number would pass that of no vertex.
pub(crate) fn first_number(next: u32, count: usize) -> u32
    requires { count ≤ 1073741824 }
    ensures { result ≡ runs_on next count }
{
    if 4294967295 < (next as usize) + count {
        return 0;
    }
    next
}

// The vertices, and the lower layer's half of the map.
fn mark_kept(
    s: State,
    number: u32,
    layer: &[f32],
    distances: &[f32],
    map: &mut [u32],
    positions: &mut [f32],
    normals: &mut [f32],
    cells: &mut [u32],
    strides: &mut [u32],
    crossings: &mut [u8],
) -> usize
    requires ready { Ready s layer.now distances.now }
    requires taken_nonzero { 0 < s.taken }
    requires block_in_bounds { 2 * plane s.block ≤ length map.old }
    requires number_value { number ≡ new_first s layer.now distances.now }
    requires room { Room (record { place = 0; number = number }) (length (new_vertices s layer.now distances.now))
        (lists_given positions normals cells strides crossings map) }
    ensures map_value { lists_after positions normals cells strides crossings map ≡ put_back s map.old (new_lists s layer.now distances.now
        (with_map (half_of s.block (before s) map.old) (lists_before positions normals cells strides crossings map))) }
    ensures value { result ≡ length (new_vertices s layer.now distances.now) }
{
    let k = s.block;
    let t = s.taken - 1;
    let plane = layer.len();
    let lower = half_of(distances, plane, t);
    let at = half(plane, t);
    let end = at + plane;
    let next = Next { place: 0, number };
    layer_vertices::mark_layer(
        lower,
        layer,
        k,
        k.low.z + t,
        next,
        positions,
        normals,
        cells,
        strides,
        crossings,
        &mut map[at..end],
    )
}

// The faces. What was kept of the cells below stands in the other half of the map and in the kept positions.
fn face_kept(
    s: State,
    first: Firsts,
    count: usize,
    layer: &[f32],
    distances: &[f32],
    map: &[u32],
    kept: &[f32],
    positions: &[f32],
    cells: &[u32],
    indices: &mut [u32],
)
    requires ready { Ready s layer.now distances.now }
    requires taken_nonzero { 0 < s.taken }
    requires block_in_bounds { 2 * plane s.block ≤ length map.now }
    requires count_in_bounds { (3 * count ≤ length cells.now) × (3 * count ≤ length positions.now) }
    requires standing { Standing (between s layer.now distances.now) (box_of s.block) first.here (cells_at s)
        (take (3 * count) cells.now) (half_of s.block (before s) map.now) (take (3 * count) positions.now) }
    requires s_in_bounds { 6 * length (layer_edges (between s layer.now distances.now) (box_of s.block) (flags_of s.block) (cells_at s)) ≤ length indices.old }
    ensures { indices.new ≡ sets indices.old 0
        (indices_over (between s layer.now distances.now) (box_of s.block) (flags_of s.block) first.here (cells_at s)
        (record { map = half_of s.block s.taken map.entry.now; positions = kept.now; first = first.below })) }
{
    let k = s.block;
    let t = s.taken - 1;
    let plane = layer.len();
    let lower = half_of(distances, plane, t);
    let here = half_of(map, plane, t);
    let below = half_of(map, plane, s.taken);
    let last = 3 * count;
    layer_faces::face_layer(
        lower,
        layer,
        k,
        k.low.z + t,
        first,
        &cells[..last],
        here,
        &positions[..last],
        below,
        kept,
        indices,
        0,
    );
}

// Both, and the positions are kept for the faces of the next layer. The first layer of a box brings out nothing.
pub(crate) fn bring_out(
    s: State,
    number: u32,
    layer: &[f32],
    distances: &[f32],
    map: &mut [u32],
    kept: &mut [f32],
    positions: &mut [f32],
    normals: &mut [f32],
    cells: &mut [u32],
    strides: &mut [u32],
    crossings: &mut [u8],
    indices: &mut [u32],
)
    requires roomy { Roomy s layer.now (memory distances.now map.old kept.old) (output_given positions normals cells strides crossings indices) }
    requires number_value { number ≡ new_first s layer.now distances.now }
    ensures { left (memory distances.now map.new kept.new) (output_after positions normals cells strides crossings indices)
        ≡ brought_out s layer.now (memory distances.now map.old kept.old)
        (output_before positions normals cells strides crossings indices) }
{
    if s.taken == 0 {
        return;
    }
    let count = mark_kept(
        s, number, layer, distances, map, positions, normals, cells, strides, crossings,
    );
    let first = Firsts {
        here: number,
        below: s.first,
    };
    face_kept(
        s, first, count, layer, distances, map, kept, positions, cells, indices,
    );
    let last = 3 * count;
    copy(&mut kept[..last], &positions[..last]);
}
