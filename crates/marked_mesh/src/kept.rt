// Whether a call left the marks that it had no business with.
ghost use Rattle.std.specs.Prelude.{◌≡◌, ◌≤◌};
ghost use Rattle.judge.specs.AsRules.{answer_of};
ghost use Rattle.marked_mesh.specs.Marked.{lists_after};
ghost use Rattle.marked_mesh.specs.Kept.{written, kept_map_after, kept_vertices, kept_after};

use crate::{CELLS, CROSSINGS, INDICES, Lists, MAP, NORMALS, POSITIONS, STRIDES};
use grid::Block;
use judge::{Refusal, Tally};
use marks::list_kept;

// How many vertices or indices an answer 0 writes, as far as a list has room.
pub fn written(number: u32, count: usize) -> usize
    ensures value { result ≡ written number count }
    ensures upper_bound { result ≤ 512 }
{
    if number == 0 { count.min(512) } else { 0 }
}

impl Lists {
    // The map's entries outside the box hold their marks, those of no cell inside it hold that of no vertex, and after a refusal all are marks.
    fn map_kept(&self, k: Block, number: u32) -> bool
        ensures { result ≡ kept_map_after number k self.now.map }
    {
        if number == 0 {
            marks::map_kept(&self.map, k, MAP)
        } else {
            list_kept(&self.map, 0, MAP)
        }
    }

    // The lists of vertices hold marks past v of them.
    fn vertices_kept(&self, v: usize) -> bool
        requires { v ≤ 512 }
        ensures { result ≡ kept_vertices v (lists_after self.now) }
    {
        let positions = list_kept(&self.positions, 3 * v, POSITIONS);
        let normals = list_kept(&self.normals, 3 * v, NORMALS);
        let cells = list_kept(&self.cells, 3 * v, CELLS);
        let strides = list_kept(&self.strides, v, STRIDES);
        let crossings = list_kept(&self.crossings, v, CROSSINGS);
        positions & normals & cells & strides & crossings
    }

    // The lists hold marks past what an answer 0 writes, and a refusal left them all.
    #[tactic(auto, unfolding(crate::specs::Kept::kept_after))]
    pub fn kept(&self, a: Result<Tally, Refusal>, k: Block) -> bool
        ensures { result ≡ kept_after (answer_of a) k (lists_after self.now) }
    {
        let (number, counts) = judge::numbers(a);
        let vertices = self.vertices_kept(written(number, counts.vertices));
        let map = self.map_kept(k, number);
        let indices = list_kept(&self.indices, written(number, counts.indices), INDICES);
        vertices && map && indices
    }
}
