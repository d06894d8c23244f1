// The level of the bed in each column of a box: of a whole grid, and layer by layer from min z up, from floats and from whole numbers of 16 and of 8 bits.
// No function asks anything of its caller, and a refusal changes nothing.
#![tactic(auto)]

mod answers;
mod rising;

ghost use Rattle.std.specs.Prelude.{◌≡◌, length};
ghost use Rattle.grid.specs.Block.{point, box_of};
ghost use Rattle.levels.specs.Columns.{columns, layer_level, changed};
ghost use Rattle.levels.specs.Answers.{answer_of};
ghost use Rattle.levels.specs.Call.{box_from, levels_answer, levels_after, layer_answer, layer_after};
ghost use Rattle.levels.specs.Fits.{Taken};

pub use answers::Refusal;
use grid::values::Distance;
use grid::{Block, EachAxis, Extent};

// The levels of a whole grid.
pub fn levels<D: Distance>(
    sdf: &[D],
    dims: Extent,
    low: Extent,
    high: Extent,
    out: &mut [f32],
) -> Result<(), Refusal>
    ensures value { answer_of result ≡ levels_answer (D.floats sdf.now) (point dims) (box_from low high) (length out.old) }
    ensures out_after { out.new ≡ levels_after (D.floats sdf.now) (point dims) (box_from low high) out.old }
    ensures held { D.held sdf.now }
{
    D::told(sdf);
    let k = Block {
        dims,
        low,
        high,
        max_plane: EachAxis::NONE,
    };
    answers::levels_answer(sdf, k, out.len())?;
    rising::rise_box(sdf, k, out);
    Ok(())
}

// ---- one layer, with the layer below it, on the levels so far

fn take_layer<D: Distance>(below: &[D], layer: &[D], k: Block, z: u32, out: &mut [f32])
    requires { Taken k (D.floats below.now) (D.floats layer.now) z (length out.old) }
    ensures { out.new ≡ changed
        (layer_level (point k.dims) (box_of k) (D.floats below.now) (D.floats layer.now) z) 0 (columns (box_of k)) out.old }
{
    if z == k.low.z {
        rising::first_layer(layer, 0, k, z, out);
    } else {
        rising::rise_layer(below, layer, 0, 0, k, z, out);
    }
}

pub fn levels_layer<D: Distance>(
    below: &[D],
    layer: &[D],
    dims: Extent,
    low: Extent,
    high: Extent,
    z: u32,
    out: &mut [f32],
) -> Result<(), Refusal>
    ensures value { answer_of result ≡ layer_answer (D.floats below.now) (D.floats layer.now) (point dims) (box_from low high) z (length out.old) }
    ensures out_after { out.new ≡ layer_after (D.floats below.now) (D.floats layer.now) (point dims) (box_from low high) z out.old }
{
    let k = Block {
        dims,
        low,
        high,
        max_plane: EachAxis::NONE,
    };
    answers::layer_answer(below, layer, k, z, out.len())?;
    take_layer(below, layer, k, z, out);
    Ok(())
}
