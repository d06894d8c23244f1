// A state as the fifteen numbers that C keeps of it, so that whatever stands in its memory is a state.
ghost use Rattle.std.specs.Prelude.{◌≡◌};
ghost use Rattle.layers.specs.Words.{state_of, words_of, words_on};

use crate::State;
use grid::{Block, EachAxis, Extent};

impl From<State> for [u32; 15] {
    ghost from_gives = { λ s words. words ≡ words_of s };

    fn from(s: State) -> [u32; 15] {
        let k = s.block;
        let m = k.max_plane;
        [
            k.dims.x,
            k.dims.y,
            k.dims.z,
            k.low.x,
            k.low.y,
            k.low.z,
            k.high.x,
            k.high.y,
            k.high.z,
            u32::from(m.x),
            u32::from(m.y),
            u32::from(m.z),
            s.taken,
            s.next,
            s.first,
        ]
    }
}

// A flag is set where its number is not 0.
impl From<[u32; 15]> for State {
    ghost from_gives = { λ words s. s ≡ state_of words };

    fn from(w: [u32; 15]) -> State {
        let block = Block {
            dims: Extent {
                x: w[0],
                y: w[1],
                z: w[2],
            },
            low: Extent {
                x: w[3],
                y: w[4],
                z: w[5],
            },
            high: Extent {
                x: w[6],
                y: w[7],
                z: w[8],
            },
            max_plane: EachAxis {
                x: w[9] != 0,
                y: w[10] != 0,
                z: w[11] != 0,
            },
        };
        State {
            block,
            taken: w[12],
            next: w[13],
            first: w[14],
        }
    }
}

// The numbers of a state whose block they hold already.
pub fn step(w: &mut [u32; 15], s: State)
    ensures { w.new ≡ words_on w.old s }
{
    w[12] = s.taken;
    w[13] = s.next;
    w[14] = s.first;
}
