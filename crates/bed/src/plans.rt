// Document 02, request 10, for C: whether a lent list of blocks is a plan of a tank, and where it is none, the first edge that shows it.
ghost use Rattle.std.specs.Prelude.{map};
ghost use Rattle.plan.specs.Plan.{Checks, piece, block};
ghost use Rattle.witness.specs.Witness.{piece_in, Tells};

use plan::Block;

// The answer number, 0, 41 or 42, with the yes or no behind `holds`: no on a refusal.
#[unsafe(no_mangle)]
pub extern "C" fn bed_check_plan(
    blocks: &[Block],
    min_x: u32,
    min_y: u32,
    min_z: u32,
    max_x: u32,
    max_y: u32,
    max_z: u32,
    max_plane_x: bool,
    max_plane_y: bool,
    max_plane_z: bool,
    holds: &mut bool,
) -> u32
    ensures { Checks (map piece blocks.now) (piece (block min_x min_y min_z max_x max_y max_z max_plane_x max_plane_y max_plane_z)) result
        holds.new }
{
    let whole = Block {
        min_x,
        min_y,
        min_z,
        max_x,
        max_y,
        max_z,
        max_plane_x,
        max_plane_y,
        max_plane_z,
    };
    match plan::check_plan(blocks, whole) {
        Ok(yes) => {
            *holds = yes;
            0
        }
        Err(why) => {
            *holds = false;
            why.into()
        }
    }
}

// The first edge at which blocks are no plan, and the first two blocks that own it. The answer number: 0 told, 43 they are a plan, or 40, 41 or 42.
#[unsafe(no_mangle)]
pub extern "C" fn bed_plan_witness(blocks: &[u32], whole: &[u32; 12], edge: &mut [u32; 6]) -> u32
    ensures { Tells blocks.now (piece_in whole.now 0) result edge.old edge.new }
{
    match witness::plan_witness(blocks, whole, edge) {
        Ok(()) => 0,
        Err(reason) => reason.into(),
    }
}
