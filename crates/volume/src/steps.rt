// One coordinate's steps of 1/256, and one vertex.
ghost use Rattle.std.specs.Prelude.{◌≡◌, ◌+◌, ◌*◌, ◌≤◌, false, not, T, length};
ghost use Rattle.lists.specs.Lists.{some};
ghost use Rattle.volume.specs.Steps.{past, steps, places_of};
ghost use Rattle.volume.specs.Volume.{corner_at};

use crate::Corner;

// With the exponent's field E from 119 on x is digits · 2^(E - 150), so 256·x is 512 · digits / 2^(151 - E); with a smaller one x is below 1/256, as are
// 512 digits over 2^33. No branch is taken.
fn places(exponent: u32) -> u64
    requires { exponent ≤ 151 }
    ensures value { result ≡ places_of exponent }
    ensures upper_bound { result ≤ 33 }
{
    if exponent < 118 {
        return 33;
    }
    (151 - exponent) as u64
}

#[tactic(auto, using(crate::proofs::Coordinate::permitted_number, crate::proofs::Coordinate::bits_steps))]
fn steps_of(x: f32) -> u64
    requires { T (not (past 16777216 x)) }
    ensures { result ≡ steps x }
{
    let bits = x.to_bits();
    let exponent = bits % 2147483648 / 8388608;
    let digits = (8388608 + bits % 8388608) as u64;
    (512 * digits) >> places(exponent)
}

// The vertex v of a list with three coordinates for each.
#[tactic(auto, using(crate::proofs::Corners::inside))]
pub fn corner_at(positions: &[f32], v: usize) -> Corner
    requires v_in_bounds { 3 * v + 3 ≤ length positions.now }
    requires positions_value { some (past 16777216) positions.now ≡ false }
    ensures { result ≡ corner_at positions.now v }
{
    let at = 3 * v;
    let x = steps_of(positions[at]);
    let y = steps_of(positions[at + 1]);
    let z = steps_of(positions[at + 2]);
    Corner { x, y, z }
}
