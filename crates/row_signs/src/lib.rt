// The signs of a row of points in two neighbour layers: how many of them are negative, which tells a row of one sign, and, of a row that is not too
// long, a code for each place, from which its cells are classed and counted without the distances. A row is read once, and kept for the cells on both
// its sides.
#![tactic(auto)]

ghost use Rattle.std.specs.Prelude.{◌≡◌, ◌+◌, ◌≤◌, length};
ghost use Rattle.std.proofs.lemmas.List.Edits.{sets};
ghost use Rattle.row_signs.specs.Signs.{negatives_run, row_start, row_points, row_negatives, one_sign};
ghost use Rattle.row_signs.specs.Codes.{codes_run, row_kept, mixed_code};

use grid::Block;
use grid::signs::counted;
use grid::values::{Distance, value_at};

// How many of a run of distances are negative.
fn negatives<D: Distance>(points: &[D]) -> u32
    requires n_bound { length (D.floats points.now) ≤ 16777217 }
    ensures { result ≡ negatives_run (D.floats points.now) 0 (length (D.floats points.now)) }
{
    let mut count = 0u32;
    for &d in points {
        count += counted(cube::negative(d.float()));
    }
    count
}

// How many of n places from `at` on are negative, in both layers; and the code of each, to a list from a place on.
fn code_run<D: Distance>(
    lower: &[D],
    upper: &[D],
    at: usize,
    n: usize,
    codes: &mut [u32],
    from: usize,
) -> u32
    requires n_in_bounds { (at + n ≤ length (D.floats lower.now)) × (at + n ≤ length (D.floats upper.now)) }
    requires n_bound { (n ≤ 1024) × (from + n ≤ length codes.old) }
    ensures value { result ≡ negatives_run (D.floats lower.now) at n + negatives_run (D.floats upper.now) at n }
    ensures codes_after { codes.new
        ≡ sets codes.old from (codes_run (D.floats lower.now) (D.floats upper.now) at n) }
{
    let mut count = 0u32;
    for j in 0usize..n {
        let low = counted(cube::negative(value_at(lower, at + j)));
        let high = counted(cube::negative(value_at(upper, at + j)));
        codes[from + j] = low + 8 * high;
        count += low + high;
    }
    count
}

// How many of the box's points in the row y are negative, in both layers. A row of at most 1,024 points leaves its codes in the list from a place on.
pub fn read_row<D: Distance>(
    lower: &[D],
    upper: &[D],
    k: Block,
    y: u32,
    codes: &mut [u32],
    from: usize,
) -> usize
    requires x_le_x { (k.low.x ≤ k.high.x) × (row_points k ≤ 16777217) }
    requires k_in_bounds { row_start k y + row_points k ≤ length (D.floats lower.now) }
    requires k_in_bounds_2 { row_start k y + row_points k ≤ length (D.floats upper.now) }
    requires from_in_bounds { from + 1024 ≤ length codes.old }
    ensures value { result ≡ row_negatives (D.floats lower.now) (D.floats upper.now) k y }
    ensures codes_after { codes.new
        ≡ row_kept (D.floats lower.now) (D.floats upper.now) k y from codes.old }
{
    let at = (k.low.x as usize) + (k.dims.x as usize) * (y as usize);
    let points = ((k.high.x - k.low.x) as usize) + 1;
    if points <= 1024 {
        let both = code_run(lower, upper, at, points, codes, from);
        return both as usize;
    }
    let below = negatives(&lower[at..at + points]);
    let above = negatives(&upper[at..at + points]);
    (below as usize) + (above as usize)
}

// Whether a cell is a surface cell, by the sum of its four codes.
pub fn mixed_code(sum: u32) -> bool
    ensures { result ≡ mixed_code sum }
{
    (sum != 0) & (sum != 36)
}

// Whether none of the points of a row's cells are negative, or all, given how many are.
pub fn one_sign(k: Block, negative_points: usize) -> bool
    requires { k.low.x ≤ k.high.x }
    ensures { result ≡ one_sign k negative_points }
{
    let all = 4 * (((k.high.x - k.low.x) as usize) + 1);
    (negative_points == 0) | (negative_points == all)
}
