// Marks for test programs: what every lent number holds before a call, one more for each next number, so that a number changed by mistake is
// seen. A list is filled with marks, and is asked whether it kept them. Floats are compared by their bits. `stored` compares a list with stored
// numbers, bit for bit.
#![tactic(auto)]

pub mod stored;

ghost use Rattle.std.specs.Prelude.{◌≡◌, ℕ, length};
ghost use Rattle.lists.specs.Lists.{below};
ghost use Rattle.grid.specs.Block.{point, box_of};
ghost use Rattle.marks.specs.Marks.{marks, bits_of, next_word, next_float, kept_from, cell_at, reaching, no_cell_entry, kept_map};
ghost use Rattle.marks.specs.Reach.{further};

use grid::Block;

// The map's entry of a point of the box that is no cell.
const NO_VERTEX: u32 = u32::MAX;

// What a lent number can be: it has a next mark, and the bits by which it is compared.
pub trait Mark: Copy {
    ghost next: { Self → Self };

    ghost bits: { Self → ℕ };

    fn next(self) -> Self
        ensures { result ≡ next self };

    fn bits(self) -> u32
        ensures { result ≡ bits self };
}

impl Mark for u32 {
    ghost next = { next_word };

    ghost bits = { λ w. w };

    fn next(self) -> u32 {
        self.wrapping_add(1)
    }

    fn bits(self) -> u32 {
        self
    }
}

impl Mark for f32 {
    ghost next = { next_float };

    ghost bits = { bits_of };

    fn next(self) -> f32 {
        self + 1.0
    }

    fn bits(self) -> u32 {
        bits(self)
    }
}

// Bytes are marked alike.
impl Mark for u8 {
    ghost next = { λ b. b };

    ghost bits = { λ b. b };

    fn next(self) -> u8 {
        self
    }

    fn bits(self) -> u32 {
        u32::from(self)
    }
}

// The bits of a float: one pattern for every not-a-number.
#[tactic(auto, unfolding(crate::specs::Marks::bits_of))]
pub fn bits(x: f32) -> u32
    ensures { result ≡ bits_of x }
{
    if x.is_nan() { 0x7FC00000 } else { x.to_bits() }
}

// The list filled with marks.
pub fn fill<M: Mark>(list: &mut [M], first: M)
    ensures { list.new ≡ marks M.next first (length list.old) }
{
    let mut mark = first;
    for x in list.iter_mut() {
        *x = mark;
        mark = mark.next();
    }
}

// Every number from `from` on is its mark.
pub fn list_kept<M: Mark>(list: &[M], from: usize, first: M) -> bool
    ensures { result ≡ kept_from M.next M.bits from first list.now }
{
    let mut mark = first;
    for (j, x) in list.iter().enumerate() {
        if from <= j && x.bits() != mark.bits() {
            return false;
        }
        mark = mark.next();
    }
    true
}

// ---- every entry of a cell map that is no cell's is blank inside the box, and else its mark

// Which places of a box are asked for: its cells, by their lowest corners, or its points, which reach one further on each axis.
#[derive(Clone, Copy, Debug, PartialEq, Eq)]
pub(crate) enum Reach {
    Cells = 0,
    Points = 1,
}

fn is_within(low: u32, n: u64, end: u64) -> bool
    ensures { result ≡ below low end n }
{
    u64::from(low) <= n && n < end
}

// Whether the point at this index of the grid is one of these.
#[tactic(auto, using(crate::proofs::Cells::cell_is))]
fn is_inside(k: Block, reach: Reach, index: u64) -> bool
    ensures { result ≡ cell_at (point k.dims) (reaching (further reach) (box_of k)) index }
{
    let x = u64::from(k.dims.x);
    let y = u64::from(k.dims.y);
    let more = reach as u64;
    if x == 0 || y == 0 {
        return false;
    }
    let in_x = is_within(k.low.x, index % x, u64::from(k.high.x) + more);
    let in_y = is_within(k.low.y, index / x % y, u64::from(k.high.y) + more);
    let in_z = is_within(k.low.z, index / x / y, u64::from(k.high.z) + more);
    in_x && in_y && in_z
}

// What an entry that is no cell's holds afterwards, by its mark.
fn unless_inside(k: Block, index: u64, mark: u32) -> u32
    ensures { result ≡ no_cell_entry (point k.dims) (box_of k) index mark }
{
    if is_inside(k, Reach::Points, index) {
        return NO_VERTEX;
    }
    mark
}

pub fn map_kept(map: &[u32], k: Block, first: u32) -> bool
    ensures { result ≡ kept_map (point k.dims) (box_of k) first map.now }
{
    let mut mark = first;
    for (j, entry) in map.iter().enumerate() {
        let index = j as u64;
        if !is_inside(k, Reach::Cells, index) && *entry != unless_inside(k, index, mark) {
            return false;
        }
        mark = mark.next();
    }
    true
}
