// Document 02, request 8: the skin has no hole where every negative point of the box lies from min + 1 to max - 2 on each axis. That law is
// about the rules and stands in proofs/; here is the test whether a grid and a box meet its premise.
#![tactic(auto)]

pub mod layer;
mod scan;

ghost use Rattle.std.specs.Prelude.{◌≡◌};
ghost use Rattle.skin.specs.Answer.{number_of, answer_of};
ghost use Rattle.skin.specs.Scan.{examined};

use grid::checks::{Fault, first_fault};
use grid::values::Distance;
use grid::{Block, EachAxis, Extent};

// Why nothing is tested: one of document 01's conditions 1 to 3, or a layer that lies outside of the box.
#[derive(Clone, Copy, Debug, PartialEq, Eq)]
pub enum Refusal {
    Grid(Fault),
    Outside,
}

impl From<Fault> for Refusal {
    ghost use Rattle.skin.specs.declared.Refusal.TheVariants.{Grid};

    ghost from_gives = { λ fault refusal. refusal ≡ Grid fault };

    fn from(fault: Fault) -> Refusal {
        Refusal::Grid(fault)
    }
}

// The number that C gets: document 01's, or 77.
impl From<Refusal> for u32 {
    ghost from_gives = { λ refusal number. number ≡ number_of refusal };

    fn from(refusal: Refusal) -> u32 {
        match refusal {
            Refusal::Grid(fault) => u32::from(fault),
            Refusal::Outside => 77,
        }
    }
}

// Whether no negative point of the box is stray. Any numbers may come.
pub fn is_enclosed<D: Distance>(
    sdf: &[D],
    dims: Extent,
    low: Extent,
    high: Extent,
) -> Result<bool, Refusal>
    ensures { answer_of result ≡ examined (D.floats sdf.now) dims low high }
{
    let k = Block {
        dims,
        low,
        high,
        max_plane: EachAxis::NONE,
    };
    first_fault(k, sdf.len())?;
    Ok(!scan::stray_box(sdf, k))
}
