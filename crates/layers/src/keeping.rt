// What is kept of a layer: its distances, its half of the map, and the positions of the vertices that it brought out.
ghost use Rattle.std.specs.Prelude.{◌≡◌, ◌*◌, ◌%◌, ◌≤◌, length, take, drop};
ghost use Rattle.layers.specs.Memory.{plane, put_half};
ghost use Rattle.layers.specs.Offer.{cleared};
ghost use Rattle.layers.specs.Ready.{Ready};

use crate::State;

// A list takes the numbers of another that is as long: a loop of its own, since the library's copy calls a C function that the archive needs nowhere else.
pub(crate) fn copy(to: &mut [f32], from: &[f32])
    requires { length to.old ≡ length from.now }
    ensures { to.new ≡ from.now }
{
    for (i, x) in from.iter().enumerate() {
        to[i] = *x;
    }
}

// Where the layer number t begins in a list of two layers of `plane` numbers.
pub(crate) fn half(plane: usize, t: u32) -> usize
    ensures { result ≡ plane * (t % 2) }
{
    if t % 2 == 0 {
        return 0;
    }
    plane
}

// The numbers of the layer number t in such a list.
pub(crate) fn half_of<T>(list: &[T], plane: usize, t: u32) -> &[T]
    requires { (2 * plane ≤ length list.now) × (plane ≤ 1073741824) }
    ensures { result.now ≡ take plane (drop (plane * (t % 2)) list.now) }
{
    let at = half(plane, t);
    &list[at..at + plane]
}

// The layer offered, into its half of the kept distances, and its half of the map, where no point has a vertex yet.
pub(crate) fn keep_layer(s: State, layer: &[f32], distances: &mut [f32], map: &mut [u32])
    requires ready { Ready s layer.now distances.old }
    requires block_in_bounds { 2 * plane s.block ≤ length map.old }
    ensures distances_after { distances.new ≡ put_half s.block s.taken layer.now distances.old }
    ensures map_after { map.new ≡ cleared s.block s.taken map.old }
{
    let plane = layer.len();
    let at = half(plane, s.taken);
    let end = at + plane;
    copy(&mut distances[at..end], layer);
    layer_vertices::clear_layer(s.block, &mut map[at..end]);
}
