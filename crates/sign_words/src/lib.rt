// Words of 64 bits, each bit the sign of a point in a row: what is asked of 64 cells at once. A cell lies along four lines of points, near and far in this
// layer and in the one above it, and its other four corners are the next points of these lines.
#![tactic(auto)]

ghost use Rattle.std.specs.Prelude.{◌≡◌, ◌+◌, ◌<◌, length};
ghost use Rattle.sign_words.specs.Words.{onward_of, below_mask, ends_at, mixed_of};

// Where the words of the four lines stand in a list.
#[derive(Clone, Copy, Debug, PartialEq, Eq)]
pub struct Lines {
    pub near: usize,
    pub far: usize,
    pub near_up: usize,
    pub far_up: usize,
}

// Of the four points at each of 64 places: where some is negative, and where all are.
#[derive(Clone, Copy, Debug, PartialEq, Eq)]
pub struct Ends {
    pub some: u64,
    pub all: u64,
}

// A word moved on by one, its last bit being the first of the next word.
pub fn onward(w: u64, next: u64) -> u64
    ensures { result ≡ onward_of w next }
{
    (w >> 1) | (next << 63)
}

// The word i of the places below n.
pub fn below_mask(n: usize, i: usize) -> u64
    requires { i < 16777216 }
    ensures { result ≡ below_mask n i }
{
    let places = n.saturating_sub(64 * i);
    if places < 64 {
        (1u64 << (places as u32)) - 1
    } else {
        u64::MAX
    }
}

pub fn ends_at(words: &[u64], l: Lines, i: usize) -> Ends
    requires i_in_bounds { (l.near + i < length words.now) × (l.far + i < length words.now) }
    requires i_in_bounds_2 { (l.near_up + i < length words.now) × (l.far_up + i < length words.now) }
    ensures { result ≡ ends_at words.now l i }
{
    let a = words[l.near + i];
    let b = words[l.far + i];
    let c = words[l.near_up + i];
    let d = words[l.far_up + i];
    Ends {
        some: (a | b) | (c | d),
        all: (a & b) & (c & d),
    }
}

// The cells whose corners are not of one sign.
pub fn mixed(f: Ends, next: Ends) -> u64
    ensures { result ≡ mixed_of f next }
{
    let some = f.some | onward(f.some, next.some);
    let all = f.all & onward(f.all, next.all);
    some & !all
}
