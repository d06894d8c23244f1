// The answer, before anything is written: document 01's conditions 1 to 7 in their order, with V and I.
#![tactic(auto)]

ghost use Rattle.std.specs.Prelude.{◌≡◌, ◌^◌, ◌<◌};
ghost use Rattle.rules.specs.Call.{answers, answer, room_answer};
ghost use Rattle.grid.specs.Block.{call_of};
ghost use Rattle.judge.specs.AsRules.{number_of, counts_of, answer_of, room_of};

pub use count::Tally;
use grid::Block;
use grid::checks::{Fault, first_fault};
use grid::values::Distance;

// Why a call is refused: which of document 01's conditions 1 to 7 is the first that holds. Where there is too little room, V and I are said, so that the
// caller knows how much to lend.
#[derive(Clone, Copy, Debug, PartialEq, Eq)]
pub enum Refusal {
    Grid(Fault),
    Map,
    Distance,
    VertexRoom(Tally),
    IndexRoom(Tally),
}

impl From<Fault> for Refusal {
    ghost use Rattle.judge.specs.declared.Refusal.TheVariants.{Grid};

    ghost from_gives = { λ fault refusal. refusal ≡ Grid fault };

    fn from(fault: Fault) -> Refusal {
        Refusal::Grid(fault)
    }
}

// Document 01's number.
impl From<Refusal> for u32 {
    ghost from_gives = { λ refusal number. number ≡ number_of refusal };

    fn from(refusal: Refusal) -> u32 {
        match refusal {
            Refusal::Grid(fault) => u32::from(fault),
            Refusal::Map => 4,
            Refusal::Distance => 5,
            Refusal::VertexRoom(_) => 6,
            Refusal::IndexRoom(_) => 7,
        }
    }
}

impl Refusal {
    // V and I as they are said with a refusal: those for which there is too little room, and else none.
    pub fn counts(self) -> Tally
        ensures { result ≡ counts_of self }
    {
        match self {
            Refusal::VertexRoom(counts) | Refusal::IndexRoom(counts) => counts,
            _ => Tally::NONE,
        }
    }
}

// An answer as document 01 says it: its number, with V and I.
pub fn numbers(answer: Result<Tally, Refusal>) -> (u32, Tally)
    ensures { answers result.0 result.1.vertices result.1.indices ≡ answer_of answer }
{
    match answer {
        Ok(counts) => (0, counts),
        Err(refusal) => (u32::from(refusal), refusal.counts()),
    }
}

// How long the lent lists are.
#[derive(Clone, Copy, Debug, PartialEq, Eq)]
pub struct Lengths {
    pub positions: usize,
    pub normals: usize,
    pub cells: usize,
    pub strides: usize,
    pub crossings: usize,
    pub map: usize,
    pub indices: usize,
}

// Conditions 6 and 7, or V and I.
pub fn room_answer(t: Tally, room: Lengths) -> Result<Tally, Refusal>
    requires { t.vertices < 2 ^ 60 }
    ensures { answer_of result ≡ room_answer (room_of room) t.vertices t.indices }
{
    let three = 3 * t.vertices;
    if room.positions < three {
        return Err(Refusal::VertexRoom(t));
    }
    if room.normals < three {
        return Err(Refusal::VertexRoom(t));
    }
    if room.cells < three {
        return Err(Refusal::VertexRoom(t));
    }
    if room.strides < t.vertices {
        return Err(Refusal::VertexRoom(t));
    }
    if room.crossings < t.vertices {
        return Err(Refusal::VertexRoom(t));
    }
    if room.indices < t.indices {
        return Err(Refusal::IndexRoom(t));
    }
    Ok(t)
}

// The answer to a call on a grid of any of the types, with lists of these lengths. Any numbers may come.
pub fn answer_for<D: Distance>(sdf: &[D], k: Block, room: Lengths) -> Result<Tally, Refusal>
    ensures { answer_of result ≡ answer (call_of (D.floats sdf.now) k) (room_of room) }
{
    first_fault(k, sdf.len())?;
    if room.map < sdf.len() {
        return Err(Refusal::Map);
    }
    let found = count::count_box(sdf, k);
    if found.bad {
        return Err(Refusal::Distance);
    }
    room_answer(
        Tally {
            vertices: found.vertices,
            indices: found.indices,
        },
        room,
    )
}
