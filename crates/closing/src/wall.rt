// The wall: whether a value is one, how deep a bed lies below zero, and a value that is far enough for it.
ghost use Rattle.std.specs.Prelude.{◌≡◌};
ghost use Rattle.closing.specs.Answers.{bad_wall};
ghost use Rattle.closing.specs.Wall.{deeper, deepest, wall_for};

use grid::values::Distance;

// Not above zero, not finite, or above 2^124. No comparison holds of not-a-number, so it is no wall either.
pub(crate) fn bad_wall(wall: f32) -> bool
    ensures { result ≡ bad_wall wall }
{
    !((0.0 < wall) & (wall <= grid::scan::CAP))
}

fn deeper(found: f32, d: f32) -> f32
    ensures { result ≡ deeper found d }
{
    if found < -d {
        return -d;
    }
    found
}

// How deep the distances lie below zero, and those that were looked at before: 0.0 begins.
pub fn deepest<D: Distance>(so_far: f32, sdf: &[D]) -> f32
    ensures { result ≡ deepest so_far (D.floats sdf.now) }
{
    let mut found = so_far;
    for d in sdf {
        found = deeper(found, d.float());
    }
    found
}

// The least power of two that is at least 2^25 times as far: see crate closed_bed for what that is enough for.
pub fn wall_for(deepest: f32) -> f32
    ensures { result ≡ wall_for deepest }
{
    if !(0.0 < deepest) {
        return 1.0;
    }
    // 2^-149 and 2^-124
    let mut depth = f32::from_bits(1);
    let mut wall = f32::from_bits(25165824);
    for _k in 0u32..248 {
        if depth < deepest {
            depth = depth + depth;
            wall = wall + wall;
        }
    }
    wall
}
