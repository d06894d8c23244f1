// The three axes, by which edges are told apart.
ghost use Rattle.std.specs.Prelude.{◌≡◌};
ghost use Rattle.witness.specs.Witness.{axis_number};
ghost use Rattle.witness.specs.Steps.{axis_of, region_of};

use plan::Block;
use plan::region::{Region, owned_by};

#[derive(Clone, Copy, Debug, PartialEq, Eq)]
pub(crate) enum Axis {
    X,
    Y,
    Z,
}

impl From<Axis> for u32 {
    ghost from_gives = { λ axis number. number ≡ axis_number (axis_of axis) };

    fn from(axis: Axis) -> u32 {
        match axis {
            Axis::X => 0,
            Axis::Y => 1,
            Axis::Z => 2,
        }
    }
}

// The lowest points of the edges on an axis that a block owns.
#[tactic(auto, unfolding(crate::specs::Steps::region_of))]
pub(crate) fn region_on(b: Block, axis: Axis) -> Region
    ensures { result ≡ region_of (axis_of axis) b }
{
    let own = owned_by(b);
    match axis {
        Axis::X => own.x,
        Axis::Y => own.y,
        Axis::Z => own.z,
    }
}
