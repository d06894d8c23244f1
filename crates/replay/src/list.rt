// Lists of stored numbers: little-endian words of 32 bits, the next of an open file.
use crate::outcome::Fault;
use marks::Mark;
use marks::stored::{begins_with, word};
use std::io::Read;

// Reads the file's next n numbers; it is cut short if it does not hold them all, or the room does not.
pub(crate) fn read(from: &mut impl Read, n: usize, room: &mut [u8]) -> Result<(), Fault> {
    if room.len() / 4 < n {
        return Err(Fault::Cut);
    }
    let end = 4 * n;
    from.read_exact(&mut room[..end]).map_err(|_| Fault::Cut)
}

// The distance with these bits; every pattern of a not-a-number is not-a-number.
fn distance(bits: u32) -> f32 {
    if 0x7F800000 < bits % 0x80000000 {
        return f32::NAN;
    }
    f32::from_bits(bits)
}

// The stored distances; places past them get 0.0, which are not lent.
pub(crate) fn take_distances(grid: &mut [f32], stored: &[u8]) {
    for (j, d) in grid.iter_mut().enumerate() {
        *d = distance(word(stored, j));
    }
}

// The list begins with the file's next n numbers. They are read in any case.
pub(crate) fn agrees<M: Mark>(from: &mut impl Read, list: &[M], n: usize) -> bool {
    let mut bytes = [0u8; 2048];
    read(from, n, &mut bytes).is_ok() && begins_with(list, &bytes, n)
}
