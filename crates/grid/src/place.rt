// Where a point of the grid stands in the list of distances.
ghost use Rattle.std.specs.Prelude.{◌≡◌};
ghost use Rattle.rules.specs.Grid.{index};
ghost use Rattle.grid.specs.Block.{point};
ghost use Rattle.grid.specs.Inside.{PointInside};

use crate::Extent;

// "Index of (x, y, z) in dimensions (X, Y, Z): x + X·y + X·Y·z."
pub fn linearize(dims: Extent, p: Extent) -> usize
    requires { PointInside (point dims) (point p) }
    ensures { result ≡ index (point dims) (point p) }
{
    let row = dims.x as usize;
    let plane = row * (dims.y as usize);
    (p.x as usize) + row * (p.y as usize) + plane * (p.z as usize)
}
