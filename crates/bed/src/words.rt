// The twelve words of a `bed_box` taken apart, once for every function that is lent them. specs/Words12 says which word is what.
ghost use Rattle.std.specs.Prelude.{◌≡◌};
ghost use Rattle.bed.specs.Words12.{dims_asked, block_words};

use grid::{Block, EachAxis, Extent};

// The dimensions alone.
pub(crate) fn dims_of(words: &[u32; 12]) -> Extent
    ensures { result ≡ dims_asked words.now }
{
    Extent {
        x: words[0],
        y: words[1],
        z: words[2],
    }
}

// Dimensions, box and max plane.
pub(crate) fn block_of(words: &[u32; 12]) -> Block
    ensures { result ≡ block_words words.now }
{
    let dims = Extent {
        x: words[0],
        y: words[1],
        z: words[2],
    };
    let low = Extent {
        x: words[3],
        y: words[4],
        z: words[5],
    };
    let high = Extent {
        x: words[6],
        y: words[7],
        z: words[8],
    };
    let max_plane = EachAxis {
        x: words[9] != 0,
        y: words[10] != 0,
        z: words[11] != 0,
    };
    Block {
        dims,
        low,
        high,
        max_plane,
    }
}
