// What is seen from one point: the first two blocks that own the edge there, and on each axis how far nothing changes.
ghost use Rattle.std.specs.Prelude.{◌≡◌, ◌≤◌, length};
ghost use Rattle.witness.specs.Steps.{blocks_on, placed, inside, holds_at, next_of, nearer_of, nearest, first_look, looked_of, look_to};

use crate::axis::{Axis, region_on};
use plan::as_block::AsBlock;
use plan::region::{Region, Span};
use plan::triple::Triple;

// No corner of an accepted block lies so far out.
pub(crate) const FAR: u64 = 33554432;

// A point.
pub(crate) type Place = Triple<u64>;

// `next`: on x the next point at which a block begins or ends that has this y and z; on y one that has this z; on z any. FAR where there is none.
#[derive(Clone, Copy, Debug, PartialEq, Eq)]
pub(crate) struct Seen {
    pub first: Option<u32>,
    pub second: Option<u32>,
    pub next: Place,
}

fn holds(s: Span, k: u64) -> bool
    ensures { result ≡ holds_at s k }
{
    (s.from <= k) & (k < s.to)
}

#[tactic(auto, unfolding(crate::specs::Steps::inside))]
pub(crate) fn has(r: Region, p: Place) -> bool
    ensures { result ≡ inside r (placed p) }
{
    holds(r.x, p.x) & (holds(r.y, p.y) & holds(r.z, p.z))
}

// The end of a span that comes next after k.
#[tactic(auto, unfolding(crate::specs::Steps::next_of))]
fn next_of(s: Span, k: u64) -> u64
    ensures { result ≡ next_of s k }
{
    if k < s.from {
        return s.from;
    }
    if k < s.to {
        return s.to;
    }
    FAR
}

#[tactic(auto, unfolding(crate::specs::Steps::nearer_of))]
fn nearer(counts: bool, s: Span, k: u64, so_far: u64) -> u64
    ensures { result ≡ nearer_of counts s k so_far }
{
    let next = next_of(s, k);
    if counts & (next < so_far) {
        return next;
    }
    so_far
}

#[tactic(auto, unfolding(crate::specs::Steps::nearest))]
fn nearer_all(r: Region, p: Place, so_far: Place) -> Place
    ensures { result ≡ nearest r p so_far }
{
    let in_y = holds(r.y, p.y);
    let in_z = holds(r.z, p.z);
    Triple {
        x: nearer(in_y & in_z, r.x, p.x, so_far.x),
        y: nearer(in_z, r.y, p.y, so_far.y),
        z: nearer(true, r.z, p.z, so_far.z),
    }
}

fn first_look(whole: Region, p: Place) -> Seen
    ensures { result ≡ first_look whole p }
{
    let far = Triple {
        x: FAR,
        y: FAR,
        z: FAR,
    };
    Seen {
        first: None,
        second: None,
        next: nearer_all(whole, p, far),
    }
}

// One block more, the block number i.
#[tactic(auto, unfolding(crate::specs::Steps::looked_of))]
fn looked(l: Seen, i: u32, r: Region, p: Place) -> Seen
    ensures { result ≡ looked_of l i r p }
{
    let next = nearer_all(r, p, l.next);
    if !has(r, p) {
        return Seen { next, ..l };
    }
    match (l.first, l.second) {
        (None, _) => Seen {
            first: Some(i),
            next,
            ..l
        },
        (Some(_), None) => Seen {
            second: Some(i),
            next,
            ..l
        },
        (Some(_), Some(_)) => Seen { next, ..l },
    }
}

pub(crate) fn look(blocks: &[[u32; 12]], whole: Region, axis: Axis, p: Place) -> Seen
    requires { length blocks.now ≤ 200 }
    ensures { result ≡ look_to (blocks_on axis blocks.now) (first_look whole p) p (length blocks.now) }
{
    let mut l = first_look(whole, p);
    for (i, words) in blocks.iter().enumerate() {
        l = looked(l, i as u32, region_on(words.block(), axis), p);
    }
    l
}
