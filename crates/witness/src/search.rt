// The first wrong edge on one axis: from point to point, each the next in the order z, y, x at which anything can have changed.
ghost use Rattle.std.specs.Prelude.{◌≡◌, length};
ghost use Rattle.witness.specs.Steps.{blocks_on, region_of, axis_of, wrong_in, goes_on, moved_to, Good, Searched};

use crate::axis::{Axis, region_on};
use crate::look::{FAR, Place, Seen, has, look};
use plan::Block;
use plan::region::Region;
use plan::triple::Triple;

// A wrong edge: its axis, its lowest point, and the numbers of the first and the second block that own it.
#[derive(Clone, Copy, Debug, PartialEq, Eq)]
pub(crate) struct Wrong {
    pub axis: Axis,
    pub at: Place,
    pub first: Option<u32>,
    pub second: Option<u32>,
}

// The whole's edge has exactly one owner, and any other has none.
#[tactic(auto, unfolding(crate::specs::Steps::wrong_in))]
fn is_wrong(l: Seen, whole: Region, p: Place) -> bool
    ensures { result ≡ wrong_in l whole p }
{
    if has(whole, p) {
        l.first.is_none() | l.second.is_some()
    } else {
        l.first.is_some()
    }
}

// Whether the search goes on: the edge is right, and there is a point to come.
#[tactic(auto, unfolding(crate::specs::Steps::goes_on))]
fn goes_on(l: Seen, whole: Region, p: Place) -> bool
    ensures { result ≡ goes_on l whole p }
{
    let next = l.next;
    let more = (next.x < FAR) | ((next.y < FAR) | (next.z < FAR));
    !is_wrong(l, whole, p) & more
}

#[tactic(auto, unfolding(crate::specs::Steps::moved_to))]
fn moved(next: Place, p: Place) -> Place
    ensures { result ≡ moved_to next p }
{
    if next.x < FAR {
        return Triple {
            x: next.x,
            y: p.y,
            z: p.z,
        };
    }
    if next.y < FAR {
        return Triple {
            x: 0,
            y: next.y,
            z: p.z,
        };
    }
    Triple {
        x: 0,
        y: 0,
        z: next.z,
    }
}

pub(crate) fn search(blocks: &[[u32; 12]], whole: Block, axis: Axis) -> Option<Wrong>
    requires { Good blocks.now whole }
    ensures { Searched (blocks_on axis blocks.now) (length blocks.now) (region_of (axis_of axis) whole) axis result }
{
    let w = region_on(whole, axis);
    let mut p = Triple { x: 0, y: 0, z: 0 };
    let mut l = look(blocks, w, axis, p);
    while goes_on(l, w, p) {
        p = moved(l.next, p);
        l = look(blocks, w, axis, p);
    }
    if !is_wrong(l, w, p) {
        return None;
    }
    Some(Wrong {
        axis,
        at: p,
        first: l.first,
        second: l.second,
    })
}
