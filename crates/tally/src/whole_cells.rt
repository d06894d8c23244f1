// The cells whose eight corners are negative, counted: of a row, of a layer between its two layers of distances, which are lent apart, and of a box.
ghost use Rattle.std.specs.Prelude.{◌≡◌, ◌+◌, ◌<◌, ◌≤◌, length};
ghost use Rattle.lists.specs.Lists.{many};
ghost use Rattle.rules.specs.Vertices.{row_cells};
ghost use Rattle.grid.specs.Block.{box_of, field_of};
ghost use Rattle.grid.specs.Inside.{Inside};
ghost use Rattle.grid.specs.Layers.{two_layers, InLayers};
ghost use Rattle.tally.specs.Cells.{all_negative, whole_cells, whole_in_layer};
ghost use Rattle.tally.specs.Runs.{whole_run};

use grid::Block;
use grid::lent::layers_at;
use grid::signs::{counted, side_negatives};
use grid::values::Distance;

// How many of n cells in a row have eight negative corners, `at` being the place of the first one's lowest corner. A cell shares its upper x side with the
// next cell's lower one: the negatives of each side are counted once, and carried.
fn whole_run<D: Distance>(lower: &[D], upper: &[D], at: usize, row: usize, n: usize) -> u32
    requires row_in_bounds { (at + n + row < length (D.floats lower.now)) × (at + n + row < length (D.floats upper.now)) }
    requires n_bound { n ≤ 16777217 }
    ensures { result ≡ whole_run (D.floats lower.now) (D.floats upper.now) at row n }
{
    let mut low = side_negatives(lower, upper, at, row);
    let mut count = 0u32;
    for j in 0usize..n {
        let high = side_negatives(lower, upper, at + j + 1, row);
        count += counted(low + high == 8);
        low = high;
    }
    count
}

// The row (y, z) of cells.
fn whole_row<D: Distance>(lower: &[D], upper: &[D], k: Block, y: u32, z: u32) -> usize
    requires in_layers { InLayers (D.floats lower.now) (D.floats upper.now) k z }
    requires y_le_y { (k.low.y ≤ y) × (y < k.high.y) }
    ensures { result ≡ many (all_negative (two_layers (D.floats lower.now) (D.floats upper.now) k z)) (row_cells (box_of k) z y) }
{
    let row = k.dims.x as usize;
    let n = (k.high.x - k.low.x) as usize;
    let at = (k.low.x as usize) + row * (y as usize);
    let count = whole_run(lower, upper, at, row, n);
    let total = count as usize;
    total
}

// The layer z of cells.
pub(crate) fn whole_layer<D: Distance>(lower: &[D], upper: &[D], k: Block, z: u32) -> usize
    requires { InLayers (D.floats lower.now) (D.floats upper.now) k z }
    ensures { result ≡ whole_in_layer (two_layers (D.floats lower.now) (D.floats upper.now) k z) (box_of k) z }
{
    let from = k.low.y;
    let end = k.high.y;
    let mut count = 0usize;
    for y in from..end {
        let one = whole_row(lower, upper, k, y, z);
        count += one;
    }
    count
}

// The layer z of a whole grid, whose parts are lent.
fn whole_part<D: Distance>(sdf: &[D], k: Block, z: u32) -> usize
    requires inside { Inside (D.floats sdf.now) k }
    requires z_le_z { (k.low.z ≤ z) × (z < k.high.z) }
    ensures { result ≡ whole_in_layer (field_of (D.floats sdf.now) k) (box_of k) z }
{
    let (lower, upper) = layers_at(sdf, k, z);
    whole_layer(lower, upper, k, z)
}

// All layers of a grid.
pub(crate) fn whole_box<D: Distance>(sdf: &[D], k: Block) -> usize
    requires { Inside (D.floats sdf.now) k }
    ensures { result ≡ whole_cells (field_of (D.floats sdf.now) k) (box_of k) }
{
    let from = k.low.z;
    let end = k.high.z;
    let mut count = 0usize;
    for z in from..end {
        let one = whole_part(sdf, k, z);
        count += one;
    }
    count
}
