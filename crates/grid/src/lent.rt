// The layers of points of a grid, as parts of its list.
ghost use Rattle.std.specs.Prelude.{◌≡◌, ◌+◌, ◌*◌, ◌<◌, ◌≤◌};
ghost use Rattle.grid.specs.Inside.{Inside};
ghost use Rattle.grid.specs.Layers.{part, rest};

use crate::Block;
use crate::values::Distance;

// The layer z of points, and all the layers above it: between the two lies the layer z of cells.
pub fn layers_at<D: Distance>(sdf: &[D], k: Block, z: u32) -> (&[D], &[D])
    requires inside { Inside (D.floats sdf.now) k }
    requires z_le_z { (k.low.z ≤ z) × (z < k.high.z) }
    ensures lower_list { result.0.now ≡ part (k.dims.x * k.dims.y * z) (k.dims.x * k.dims.y) sdf.now }
    ensures upper_list { result.1.now ≡ rest (k.dims.x * k.dims.y * z + k.dims.x * k.dims.y) sdf.now }
    ensures lower { D.floats result.0.now ≡ part (k.dims.x * k.dims.y * z) (k.dims.x * k.dims.y) (D.floats sdf.now) }
    ensures upper { D.floats result.1.now ≡ rest (k.dims.x * k.dims.y * z + k.dims.x * k.dims.y) (D.floats sdf.now) }
{
    let plane = (k.dims.x as usize) * (k.dims.y as usize);
    let start = plane * (z as usize);
    let end = start + plane;
    (&sdf[start..end], &sdf[end..])
}
