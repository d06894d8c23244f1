// Stored numbers, little-endian words of 32 bits, and whether a list begins with them, bit for bit.
ghost use Rattle.std.specs.Prelude.{◌≡◌};
ghost use Rattle.marks.specs.Stored.{stored_word, each_below, place_is};

use crate::Mark;

// The number at place j, and 0 past the end.
#[tactic(auto, unfolding(crate::specs::Stored::stored_word))]
pub fn word(stored: &[u8], j: usize) -> u32
    ensures { result ≡ stored_word stored.now j }
{
    if stored.len() / 4 <= j {
        return 0;
    }
    let at = 4 * j;
    u32::from_le_bytes([stored[at], stored[at + 1], stored[at + 2], stored[at + 3]])
}

// The number at place j of the list is the stored one. What would stand past the list's end does not matter.
#[tactic(auto, unfolding(crate::specs::Stored::place_is))]
fn holds<M: Mark>(list: &[M], stored: &[u8], j: usize) -> bool
    ensures { (other : M) → result ≡ place_is M.bits other list.now stored.now j }
{
    list.get(j).is_some_and(|x| x.bits() == word(stored, j))
}

// The list begins with the n stored numbers.
pub fn begins_with<M: Mark>(list: &[M], stored: &[u8], n: usize) -> bool
    ensures { (other : M) → result ≡ each_below (place_is M.bits other list.now stored.now) n }
{
    for j in 0..n {
        if !holds(list, stored, j) {
            return false;
        }
    }
    true
}
