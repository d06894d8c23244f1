// The three tests of a plan: every edge that a block owns is the whole's, no edge is owned by two blocks, and together they own as many as the whole.
ghost use Rattle.std.specs.Prelude.{◌≡◌, ◌*◌, ◌^◌, take, not, T};
ghost use Rattle.plan.specs.Plan.{bad_block};
ghost use Rattle.std.specs.List.{list_any, list_all, enumerate_from};
ghost use Rattle.plan.specs.Size.{MostAll, sizes_of, same_sums};
ghost use Rattle.plan.specs.Region.{owned_of, owned_meet};
ghost use Rattle.plan.specs.Tests.{is_inside, is_apart, sums_of, covers_once, Good};

use crate::Block;
use crate::region::{Owned, owned_by, owned_inside, owned_meet};
use crate::size::{Sum, Sums, add_all, same_all, sizes};
use crate::triple::Triple;

fn all_inside(blocks: &[Block], whole: Block) -> bool
    ensures { result ≡ list_all (is_inside whole) blocks.now }
{
    let w = owned_by(whole);
    blocks.iter().all(|b| owned_inside(owned_by(*b), w))
}

// Whether one of the first i blocks owns an edge that is owned here.
fn meets_before(blocks: &[Block], i: usize, own: Owned) -> bool
    ensures { result ≡ list_any (λ c. owned_meet own (owned_of c)) (take i blocks.now) }
{
    blocks.iter().take(i).any(|c| owned_meet(own, owned_by(*c)))
}

fn is_apart(blocks: &[Block], i: usize, b: Block) -> bool
    ensures { result ≡ is_apart blocks.now (i, b) }
{
    !meets_before(blocks, i, owned_by(b))
}

// Each block is compared with those before it.
fn all_apart(blocks: &[Block]) -> bool
    ensures { result ≡ list_all (is_apart blocks.now) (enumerate_from 0 blocks.now) }
{
    blocks
        .iter()
        .enumerate()
        .all(|(i, b)| is_apart(blocks, i, *b))
}

// How many x, y and z edges the block owns.
fn sizes_of_block(b: Block) -> Sums
    requires { T (not (bad_block b)) }
    ensures sizes { result ≡ sizes_of (owned_of b) }
    ensures most { MostAll (2 ^ 48) result }
{
    sizes(owned_by(b))
}

fn sums_of(blocks: &[Block]) -> Sums
    requires { Good blocks.now }
    ensures sums { result ≡ sums_of blocks.now }
    ensures most { MostAll (200 * 2 ^ 48) result }
{
    let none = Sum { high: 0, low: 0 };
    let mut sums = Triple {
        x: none,
        y: none,
        z: none,
    };
    for b in blocks {
        sums = add_all(sums, sizes_of_block(*b));
    }
    sums
}

fn as_many(blocks: &[Block], whole: Block) -> bool
    requires blocks { Good blocks.now }
    requires whole { T (not (bad_block whole)) }
    ensures { result ≡ same_sums (sums_of blocks.now) (sizes_of (owned_of whole)) }
{
    same_all(sums_of(blocks), sizes_of_block(whole))
}

pub(crate) fn covers_once(blocks: &[Block], whole: Block) -> bool
    requires blocks { Good blocks.now }
    requires whole { T (not (bad_block whole)) }
    ensures { result ≡ covers_once blocks.now whole }
{
    all_inside(blocks, whole) && all_apart(blocks) && as_many(blocks, whole)
}
