// A negative point that is not from min + 1 to max - 2 on each axis. One function for a point, a row, a layer and the box. The distances of a layer z may stand
// in a grid of their own: f is the block whose grid is lent, `place` the layer of it that is read, and k and z say of which box and layer its points are.
ghost use Rattle.std.specs.Prelude.{◌≡◌, ◌&&◌, not, ◌+◌, ◌≤◌, leb};
ghost use Rattle.rules.specs.Cell.{negative};
ghost use Rattle.grid.specs.Block.{point, box_of, field_of};
ghost use Rattle.grid.specs.Inside.{Inside};
ghost use Rattle.skin.specs.Enclosed.{inner_side, inner};
ghost use Rattle.skin.specs.Scan.{stray_part, stray_row, stray_layer, stray_box};

use grid::values::{Distance, value_at};
use grid::{Block, Extent};

// From min + 1 to max - 2 on one axis. No sum is formed that could pass 32 bits.
pub(crate) fn inner_side(low: u32, high: u32, n: u32) -> bool
    ensures { result ≡ inner_side low high n }
{
    low < n && n < high && 2 <= high - n
}

#[tactic(auto, unfolding(crate::specs::Enclosed::inner))]
pub(crate) fn is_inner(k: Block, p: Extent) -> bool
    ensures { result ≡ inner (box_of k) (point p) }
{
    inner_side(k.low.x, k.high.x, p.x)
        && inner_side(k.low.y, k.high.y, p.y)
        && inner_side(k.low.z, k.high.z, p.z)
}

// The point p has the distance d.
pub(crate) fn is_stray(d: f32, k: Block, p: Extent) -> bool
    ensures { result ≡ (negative d && not (inner (box_of k) (point p))) }
{
    cube::negative(d) && !is_inner(k, p)
}

// The row y of the layer z lies from min + 1 to max - 2, and the row is of more than three points: then its inner ones need not be read.
pub(crate) fn is_middle(k: Block, y: u32, z: u32, wide: u32) -> bool
    ensures { result ≡ (inner_side k.low.y k.high.y y && (inner_side k.low.z k.high.z z && leb 3 wide)) }
{
    inner_side(k.low.y, k.high.y, y) && inner_side(k.low.z, k.high.z, z) && 3 <= wide
}

// The points of a row from `from` up to `end`, which is left out.
pub(crate) fn stray_part<D: Distance>(
    sdf: &[D],
    f: Block,
    k: Block,
    y: u32,
    place: u32,
    z: u32,
    from: u32,
    end: u32,
) -> bool
    requires inside { Inside (D.floats sdf.now) f }
    requires y_le_y { (f.low.y ≤ y) × (y ≤ f.high.y) × (f.low.z ≤ place) × (place ≤ f.high.z) }
    requires x_le_from { (f.low.x ≤ from) × (from ≤ end) × (end ≤ f.high.x + 1) }
    ensures { result ≡ stray_part (field_of (D.floats sdf.now) f) (box_of k) place z y from end }
{
    let mut stray = false;
    for x in from..end {
        let p = Extent { x, y, z: place };
        let q = Extent { x, y, z };
        let at = grid::place::linearize(f.dims, p);
        stray = grid::scan::either(stray, is_stray(value_at(sdf, at), k, q));
    }
    stray
}

// A row. f and k are the same on x.
pub(crate) fn stray_row<D: Distance>(
    sdf: &[D],
    f: Block,
    k: Block,
    y: u32,
    place: u32,
    z: u32,
) -> bool
    requires inside { Inside (D.floats sdf.now) f }
    requires y_le_y { (f.low.y ≤ y) × (y ≤ f.high.y) × (f.low.z ≤ place) × (place ≤ f.high.z) }
    requires x_value { (f.low.x ≡ k.low.x) × (f.high.x ≡ k.high.x) }
    ensures { result ≡ stray_row (field_of (D.floats sdf.now) f) (box_of f) (box_of k) place z y }
{
    let from = f.low.x;
    let last = f.high.x;
    if !is_middle(k, y, z, last - from) {
        return stray_part(sdf, f, k, y, place, z, from, last + 1);
    }
    let first = stray_part(sdf, f, k, y, place, z, from, from + 1);
    let rest = stray_part(sdf, f, k, y, place, z, last - 1, last + 1);
    grid::scan::either(first, rest)
}

pub(crate) fn stray_layer<D: Distance>(sdf: &[D], f: Block, k: Block, place: u32, z: u32) -> bool
    requires inside { Inside (D.floats sdf.now) f }
    requires z_le_place { (f.low.z ≤ place) × (place ≤ f.high.z) }
    requires x_value { (f.low.x ≡ k.low.x) × (f.high.x ≡ k.high.x) }
    ensures { result ≡ stray_layer (field_of (D.floats sdf.now) f) (box_of f) (box_of k) place z }
{
    let from = f.low.y;
    let end = f.high.y + 1;
    let mut stray = false;
    for y in from..end {
        stray = grid::scan::either(stray, stray_row(sdf, f, k, y, place, z));
    }
    stray
}

pub(crate) fn stray_box<D: Distance>(sdf: &[D], k: Block) -> bool
    requires { Inside (D.floats sdf.now) k }
    ensures { result ≡ stray_box (field_of (D.floats sdf.now) k) (box_of k) }
{
    let from = k.low.z;
    let end = k.high.z + 1;
    let mut stray = false;
    for z in from..end {
        stray = grid::scan::either(stray, stray_layer(sdf, k, k, z, z));
    }
    stray
}
