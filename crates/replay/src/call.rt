// One stored call, made through the library and compared.
use crate::outcome::{Fault, Part};
use crate::stored::{Asked, Expected};
use crate::{list, stored};
use grid::Block;
use judge::{Lengths, Refusal, Tally};
use marked_mesh::{Lists, Meshed, mesh_marked};
use std::io::Read;

// The first of the answer, V and I that differs.
fn answer_differs(a: Result<Tally, Refusal>, e: Expected) -> Option<Part> {
    let (number, counts) = judge::numbers(a);
    if number != e.answer {
        return Some(Part::Answer);
    }
    if counts.vertices != e.vertex_count as usize {
        return Some(Part::Vertices);
    }
    if counts.indices != e.index_count as usize {
        return Some(Part::Indices);
    }
    None
}

// The first of the lists that differs. The stored ones follow in this order, and all are read in any case.
fn lists_differ(from: &mut impl Read, n: Lengths, lists: &Lists) -> Option<Part> {
    let agree = [
        (
            Part::PositionList,
            list::agrees(from, &lists.positions, n.positions),
        ),
        (
            Part::NormalList,
            list::agrees(from, &lists.normals, n.normals),
        ),
        (Part::CellList, list::agrees(from, &lists.cells, n.cells)),
        (
            Part::StrideList,
            list::agrees(from, &lists.strides, n.strides),
        ),
        (Part::MapList, list::agrees(from, &lists.map, n.map)),
        (
            Part::IndexList,
            list::agrees(from, &lists.indices, n.indices),
        ),
    ];
    let (part, _) = agree.iter().find(|(_, agrees)| !*agrees)?;
    Some(*part)
}

// The lists hold what the layout says before the call.
fn made(from: &mut impl Read, grid: &[f32], block: Block, e: Expected) -> Option<Part> {
    let Meshed { answer, lists } = mesh_marked(grid, block, e.lent);
    let in_lists = lists_differ(from, e.lent, &lists);
    answer_differs(answer, e).or(in_lists)
}

fn replay_asked(from: &mut impl Read, a: Asked) -> Result<Option<Part>, Fault> {
    let mut stored = [0u8; 1024];
    let mut grid = [0.0f32; 256];
    list::read(from, a.grid, &mut stored)?;
    list::take_distances(&mut grid, &stored);
    let e = stored::read_tail(from)?;
    let n = a.grid.min(grid.len());
    Ok(made(from, &grid[..n], a.block, e))
}

// The file's next call: the first part in which it differs from what is stored, if it does.
pub(crate) fn replay(from: &mut impl Read) -> Result<Option<Part>, Fault> {
    let asked = stored::read_head(from)?;
    replay_asked(from, asked)
}
