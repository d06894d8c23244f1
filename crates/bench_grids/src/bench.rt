// One bench grid: the library is called on marked lists, and what it answered is printed with what became of the marks.
use crate::said::Line;
use grid::Block;
use judge::{Lengths, Refusal, Tally};
use marked_mesh::{Lists, Meshed, mesh_marked, written};

// What is printed besides the answer and the counts.
#[derive(Clone, Copy, Debug, PartialEq, Eq)]
pub(crate) enum Show {
    Counts,
    Mesh,
    Indices,
    Vertex,
}

// Room for the largest mesh here, and three numbers to spare in each list.
pub(crate) const AMPLE: Lengths = Lengths {
    positions: 27,
    normals: 27,
    cells: 27,
    strides: 11,
    crossings: 11,
    map: 30,
    indices: 39,
};

// A call on a grid, and what is printed of it.
#[derive(Clone, Copy)]
pub(crate) struct Case<'a> {
    pub(crate) name: &'static str,
    pub(crate) sdf: &'a [f32],
    pub(crate) asked: Block,
    pub(crate) room: Lengths,
    pub(crate) show: Show,
}

impl<'a> Case<'a> {
    // With ample room, and the counts alone.
    pub(crate) fn new(name: &'static str, sdf: &'a [f32], asked: Block) -> Case<'a> {
        Case {
            name,
            sdf,
            asked,
            room: AMPLE,
            show: Show::Counts,
        }
    }

    pub(crate) fn run(&self, rt: &impl Print) {
        let Meshed { answer, lists } = mesh_marked(self.sdf, self.asked, self.room);
        let line = Line {
            name: self.name,
            answer,
            is_kept: lists.kept(answer, self.asked),
        };
        let _ = println!(rt; "{line}");
        match self.show {
            Show::Counts => {}
            Show::Mesh => show_mesh(rt, answer, &lists),
            Show::Indices => show_indices(rt, answer, &lists),
            Show::Vertex => show_vertex(rt, &lists),
        }
    }
}

fn show_mesh(rt: &impl Print, a: Result<Tally, Refusal>, lists: &Lists) {
    let (number, counts) = judge::numbers(a);
    let v = written(number, counts.vertices);
    printed::numbers(rt, "    strides", &lists.strides, v);
    printed::numbers(rt, "    crossings", &lists.crossings, v);
    show_indices(rt, a, lists);
    printed::point(rt, b"    vertex 0", &lists.positions, 0);
    printed::point(rt, b"    vertex 1", &lists.positions, 1);
}

fn show_indices(rt: &impl Print, a: Result<Tally, Refusal>, lists: &Lists) {
    let (number, counts) = judge::numbers(a);
    printed::numbers(
        rt,
        "    indices",
        &lists.indices,
        written(number, counts.indices),
    );
}

fn show_vertex(rt: &impl Print, lists: &Lists) {
    printed::point(rt, b"    position", &lists.positions, 0);
    printed::point(rt, b"    normal", &lists.normals, 0);
}
