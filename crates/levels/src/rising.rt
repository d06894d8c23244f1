// The levels from the lowest layer up: one more point on a column, one more row of points and one more layer on the columns of a box, and all layers of a
// grid. The two layers that a step reads are lent as lists of their own with a place in each, so that the layers of a whole grid serve as well.
ghost use Rattle.std.specs.Prelude.{◌≡◌, ◌+◌, ◌-◌, ◌≤◌, length, if◌then◌else◌};
ghost use Rattle.rules.specs.Cell.{◌⊕◌, negative, fraction};
ghost use Rattle.grid.specs.Block.{box_of, field_of};
ghost use Rattle.grid.specs.Inside.{Inside};
ghost use Rattle.levels.specs.Column.{no_level};
ghost use Rattle.levels.specs.Columns.{columns, level_of, changed};
ghost use Rattle.levels.specs.Fits.{Roomy, Laid, row_step, column_step, lowest_step};

use grid::Block;
use grid::values::Distance;
use std::num::nearest_u32_to_f32;

// The z below, for the level of a crossing; at 0, where no crossing is below, 0.
fn one_below(z: u32) -> u32
    ensures { result ≡ z - 1 }
{
    if z == 0 {
        return 0;
    }
    z - 1
}

// One more point on a column: `top` is its z and `under` that of the point below it, as floats.
fn step(top: f32, under: f32, lower: f32, upper: f32, old: f32) -> f32
    ensures { result ≡ (if negative upper then top else (if negative lower then (under ⊕ fraction lower upper) else old)) }
{
    if cube::negative(upper) {
        return top;
    }
    if cube::negative(lower) {
        return under + lower / (lower - upper);
    }
    old
}

// One more row of points, on the columns from `to` on.
fn rise_row<D: Distance>(lower: &[D], upper: &[D], z: u32, out: &mut [f32], to: usize)
    requires as_long { length (D.floats lower.now) ≡ length (D.floats upper.now) }
    requires room { to + length (D.floats lower.now) ≤ length out.old }
    ensures { out.new
        ≡ changed (row_step (D.floats lower.now) (D.floats upper.now) 0 0 z to) to (to + length (D.floats lower.now)) out.old }
{
    let top = nearest_u32_to_f32(z);
    let under = nearest_u32_to_f32(one_below(z));
    for (j, low) in lower.iter().enumerate() {
        out[to + j] = step(top, under, low.float(), upper[j].float(), out[to + j]);
    }
}

// One more layer on the columns of a box. The layers begin at a and b in their lists.
pub(crate) fn rise_layer<D: Distance>(
    lower: &[D],
    upper: &[D],
    a: usize,
    b: usize,
    k: Block,
    z: u32,
    out: &mut [f32],
)
    requires roomy { Roomy k (length out.old) }
    requires laid { Laid k (D.floats lower.now) (D.floats upper.now) a b }
    ensures { out.new
        ≡ changed (column_step k (D.floats lower.now) (D.floats upper.now) a b z) 0 (columns (box_of k)) out.old }
{
    let from = k.low.y;
    let end = k.high.y + 1;
    let n = (k.high.x + 1 - k.low.x) as usize;
    for y in from..end {
        let at = (k.low.x as usize) + (k.dims.x as usize) * (y as usize);
        let to = ((y - from) as usize) * n;
        rise_row(
            &lower[a + at..a + at + n],
            &upper[b + at..b + at + n],
            z,
            out,
            to,
        );
    }
}

// No level yet, in the first n places.
fn clear(n: usize, out: &mut [f32])
    requires { n ≤ length out.old }
    ensures { out.new ≡ changed (λ _ _. no_level) 0 n out.old }
{
    out[..n].fill(-1.0);
}

// How many columns the box has.
pub(crate) fn column_count(k: Block) -> usize
    requires { Roomy k (columns (box_of k)) }
    ensures { result ≡ columns (box_of k) }
{
    ((k.high.y + 1 - k.low.y) as usize) * ((k.high.x + 1 - k.low.x) as usize)
}

// The lowest layer, which begins at b in its list. It is taken as if it stood on itself: no point of it that is not below zero stands on one that is.
pub(crate) fn first_layer<D: Distance>(upper: &[D], b: usize, k: Block, z: u32, out: &mut [f32])
    requires roomy { Roomy k (length out.old) }
    requires laid { Laid k (D.floats upper.now) (D.floats upper.now) b b }
    ensures { out.new ≡ changed (lowest_step k (D.floats upper.now) b z) 0 (columns (box_of k)) out.old }
{
    let n = column_count(k);
    clear(n, out);
    rise_layer(upper, upper, b, b, k, z, out);
}

// All layers of a grid, from min z to max z.
pub(crate) fn rise_box<D: Distance>(sdf: &[D], k: Block, out: &mut [f32])
    requires inside { Inside (D.floats sdf.now) k }
    requires k_in_bounds { columns (box_of k) ≤ length out.old }
    ensures { out.new
        ≡ changed (λ j _. level_of (field_of (D.floats sdf.now) k) (box_of k) j) 0 (columns (box_of k)) out.old }
{
    let plane = (k.dims.x as usize) * (k.dims.y as usize);
    let from = k.low.z + 1;
    let end = k.high.z + 1;
    first_layer(sdf, plane * (k.low.z as usize), k, k.low.z, out);
    for z in from..end {
        let upper = plane * (z as usize);
        rise_layer(sdf, sdf, upper - plane, upper, k, z, out);
    }
}
