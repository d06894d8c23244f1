// The bed layer by layer (document 02, request 1): dimensions, box and max plane first, then one layer of X·Y distances a call, from min z to max z.
// What stands between two calls is a state of plain numbers and three lent lists. Any state and any lists may come: no look-up leaves its list.
#![tactic(auto)]

mod answers;
mod bringing;
mod keeping;
mod start;
pub mod words;

ghost use Rattle.std.specs.Prelude.{◌≡◌, ◌≤◌, ◌<◌};
ghost use Rattle.layers.specs.Answer.{number_of, answer_of};
ghost use Rattle.layers.specs.Offer.{begun, left, room_in, layer_answer, runs_on, advanced, state_after, leaves};
ghost use Rattle.layers.specs.Lent.{memory_before, memory_after, output_before, output_after};

use grid::Block;
use grid::checks::Fault;
use judge::Lengths;
pub use judge::Tally;
pub use start::start_answer;

// Why the start or a layer is refused: one of document 01's conditions, of which the fourth speaks of the lists that are kept, or no further layer is wanted.
#[derive(Clone, Copy, Debug, PartialEq, Eq)]
pub enum Refusal {
    Call(judge::Refusal),
    Full,
}

impl From<judge::Refusal> for Refusal {
    ghost use Rattle.layers.specs.declared.Refusal.TheVariants.{Call};

    ghost from_gives = { λ call refusal. refusal ≡ Call call };

    fn from(refusal: judge::Refusal) -> Refusal {
        Refusal::Call(refusal)
    }
}

impl From<Fault> for Refusal {
    ghost use Rattle.judge.specs.declared.Refusal.TheVariants.{Grid};
    ghost use Rattle.layers.specs.declared.Refusal.TheVariants.{Call};

    ghost from_gives = { λ fault refusal. refusal ≡ Call (Grid fault) };

    fn from(fault: Fault) -> Refusal {
        Refusal::Call(judge::Refusal::Grid(fault))
    }
}

// The number that C gets: document 01's, or 8.
impl From<Refusal> for u32 {
    ghost from_gives = { λ refusal number. number ≡ number_of refusal };

    fn from(refusal: Refusal) -> u32 {
        match refusal {
            Refusal::Call(refusal) => u32::from(refusal),
            Refusal::Full => 8,
        }
    }
}

// The block with the layers taken of it, the number of the next vertex, and the number of the first vertex of the last layer of cells.
#[derive(Clone, Copy, Debug, PartialEq, Eq)]
pub struct State {
    pub block: Block,
    pub taken: u32,
    pub next: u32,
    pub first: u32,
}

impl State {
    // Before the first layer.
    pub fn begin(k: Block) -> State
        ensures { result ≡ begun k }
    {
        State {
            block: k,
            taken: 0,
            next: 0,
            first: 0,
        }
    }

    // After a layer that brings out so many vertices.
    fn advance(self, count: usize) -> State
        requires { (count ≤ 1073741824) × (self.taken < 4294967295) }
        ensures { result ≡ advanced self (runs_on self.next count) count }
    {
        let first = bringing::first_number(self.next, count);
        State {
            block: self.block,
            taken: self.taken + 1,
            next: first + (count as u32),
            first,
        }
    }

    // One layer, and V and I of it. Refused, everything stays; otherwise the layer is kept, the cells between it and the one before come out, and the state goes on.
    pub fn offer(
        &mut self,
        layer: &[f32],
        distances: &mut [f32],
        map: &mut [u32],
        kept: &mut [f32],
        positions: &mut [f32],
        normals: &mut [f32],
        cells: &mut [u32],
        strides: &mut [u32],
        crossings: &mut [u8],
        indices: &mut [u32],
    ) -> Result<Tally, Refusal>
        ensures answer_value { answer_of result ≡ layer_answer self.old layer.now (memory_before distances map kept)
            (room_in (memory_before distances map kept) (output_before positions normals cells strides crossings indices)) }
        ensures state_value { self.new ≡ state_after self.old layer.now (memory_before distances map kept)
            (output_before positions normals cells strides crossings indices) }
        ensures indices_value { left (memory_after distances map kept) (output_after positions normals cells strides crossings indices)
            ≡ leaves self.old layer.now (memory_before distances map kept) (output_before positions normals cells strides crossings indices) }
    {
        let room = Lengths {
            positions: positions.len(),
            normals: normals.len(),
            cells: cells.len(),
            strides: strides.len(),
            crossings: crossings.len(),
            map: map.len(),
            indices: indices.len(),
        };
        let s = *self;
        let counts = answers::layer_answer(s, layer, distances, map, kept, room)?;
        let next = s.advance(counts.vertices);
        bringing::bring_out(
            s, next.first, layer, distances, map, kept, positions, normals, cells, strides,
            crossings, indices,
        );
        keeping::keep_layer(s, layer, distances, map);
        *self = next;
        Ok(counts)
    }
}
