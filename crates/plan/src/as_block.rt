// Blocks as they lie in memory: as C's structs, or by twelve words each.
ghost use Rattle.std.specs.Prelude.{◌≡◌};
ghost use Rattle.plan.specs.declared.Block.{Block};
ghost use Rattle.plan.specs.Words.{block_of};

use crate::Block;

// What stands for a block.
pub trait AsBlock {
    ghost block_of: { Self → Block };

    fn block(&self) -> Block
        ensures { result ≡ block_of self.now };
}

impl AsBlock for Block {
    ghost block_of = { λ b. b };

    fn block(&self) -> Block {
        *self
    }
}

// Twelve words: dimensions that are not read, min, max and the max plane's flags, of which any word but 0 is set.
impl AsBlock for [u32; 12] {
    ghost block_of = { block_of };

    fn block(&self) -> Block {
        Block {
            min_x: self[3],
            min_y: self[4],
            min_z: self[5],
            max_x: self[6],
            max_y: self[7],
            max_z: self[8],
            max_plane_x: self[9] != 0,
            max_plane_y: self[10] != 0,
            max_plane_z: self[11] != 0,
        }
    }
}
