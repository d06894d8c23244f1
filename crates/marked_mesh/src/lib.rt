// One call of the mesher on lists of 512 numbers that hold marks, for programs that look at every number of every list afterwards. As much of each list
// is lent as is asked; the lists come back by value, so that who calls hands on no list. `kept` asks whether the marks are there still.
#![tactic(auto)]

mod kept;

ghost use Rattle.std.specs.Prelude.{◌≡◌, ◌≤◌};
ghost use Rattle.judge.specs.AsRules.{answer_of};
ghost use Rattle.marks.specs.Marks.{marks};
ghost use Rattle.marked_mesh.specs.Marked.{size, lent_length, lists_after, answered, left};

use grid::Block;
use judge::{Lengths, Refusal, Tally};
pub use kept::written;
use marks::Mark;

// The first mark of each list; every crossing is marked alike.
pub const POSITIONS: f32 = 1000.0;

pub const NORMALS: f32 = 2000.0;

pub const CELLS: u32 = 0x51000000;

pub const STRIDES: u32 = 0x52000000;

pub const CROSSINGS: u8 = 100;

pub const MAP: u32 = 0x53000000;

pub const INDICES: u32 = 0x54000000;

#[derive(Clone, Copy)]
pub struct Lists {
    pub positions: [f32; 512],
    pub normals: [f32; 512],
    pub cells: [u32; 512],
    pub strides: [u32; 512],
    pub crossings: [u8; 512],
    pub map: [u32; 512],
    pub indices: [u32; 512],
}

#[derive(Clone, Copy)]
pub struct Meshed {
    pub answer: Result<Tally, Refusal>,
    pub lists: Lists,
}

fn marked<M: Mark>(first: M) -> [M; 512]
    ensures { result ≡ marks M.next first size }
{
    let mut list = [first; 512];
    marks::fill(&mut list, first);
    list
}

// How much of a list is lent.
fn lent(asked: usize) -> usize
    ensures value { result ≡ lent_length asked }
    ensures upper_bound { result ≤ 512 }
{
    asked.min(512)
}

pub fn mesh_marked(sdf: &[f32], k: Block, asked: Lengths) -> Meshed
    ensures answer_value { answer_of result.answer ≡ answered sdf.now k asked }
    ensures lists_value { lists_after result.lists ≡ left sdf.now k asked }
{
    let mut positions = marked(POSITIONS);
    let mut normals = marked(NORMALS);
    let mut cells = marked(CELLS);
    let mut strides = marked(STRIDES);
    let mut crossings = marked(CROSSINGS);
    let mut map = marked(MAP);
    let mut indices = marked(INDICES);
    let a = lent(asked.positions);
    let b = lent(asked.normals);
    let c = lent(asked.cells);
    let d = lent(asked.strides);
    let e = lent(asked.crossings);
    let f = lent(asked.map);
    let g = lent(asked.indices);
    let answer = surface_nets::surface_nets(
        sdf,
        k.dims,
        k.low,
        k.high,
        k.max_plane,
        &mut positions[..a],
        &mut normals[..b],
        &mut cells[..c],
        &mut strides[..d],
        &mut crossings[..e],
        &mut map[..f],
        &mut indices[..g],
    );
    let lists = Lists {
        positions,
        normals,
        cells,
        strides,
        crossings,
        map,
        indices,
    };
    Meshed { answer, lists }
}
