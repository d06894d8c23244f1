// Whether a cell is a surface cell, from its eight corner values.
ghost use Rattle.std.specs.Prelude.{◌≡◌, ◌&&◌, nat_le};
ghost use Rattle.rules.specs.Cell.{negatives, surface};

use crate::crossing::negative;

// How many corners are negative. The values come by value: that there are eight of them is then known.
#[tactic(auto, using(crate::proofs::Taking::many_counted))]
pub fn negative_corners(d: [f32; 8]) -> u32
    ensures { result ≡ negatives d }
{
    d.iter().filter(|v| negative(**v)).count() as u32
}

// "A cell with 1 to 7 negative corners of 8 is a surface cell": by that number, however it was counted. It does not branch, so that a loop over a row need not.
pub fn some_of_eight(count: u32) -> bool
    ensures { result ≡ (nat_le 1 count && nat_le count 7) }
{
    (1 <= count) & (count <= 7)
}

pub fn is_surface(d: &[f32; 8]) -> bool
    ensures { result ≡ surface d.now }
{
    some_of_eight(negative_corners(*d))
}
