// Of each axis the edges that a block owns, by their lowest points: a box of points, and what two such boxes have to do with each other.
ghost use Rattle.std.specs.Prelude.{◌≡◌};
ghost use Rattle.plan.specs.Region.{along_span, across_span, owned_of, spans_meet, regions_meet, owned_meet, span_empty, span_within, region_inside, owned_inside};

use crate::Block;
use crate::triple::Triple;

// From `from` up to `to`, `to` left out.
#[derive(Clone, Copy, Debug, PartialEq, Eq)]
pub struct Span {
    pub from: u64,
    pub to: u64,
}

// A box of points.
pub type Region = Triple<Span>;

// The x, the y and the z edges that a block owns.
pub type Owned = Triple<Region>;

// On the edge's own axis: the cells and, unless max plane, not the last.
pub(crate) fn along(low: u32, high: u32, max_plane: bool) -> Span
    ensures { result ≡ along_span low high max_plane }
{
    if max_plane | (high == 0) {
        return Span {
            from: u64::from(low),
            to: u64::from(high),
        };
    }
    Span {
        from: u64::from(low),
        to: u64::from(high) - 1,
    }
}

// On the two other axes: the cells above min.
pub(crate) fn across(low: u32, high: u32) -> Span
    ensures { result ≡ across_span low high }
{
    Span {
        from: u64::from(low) + 1,
        to: u64::from(high),
    }
}

#[tactic(auto, unfolding(crate::specs::Region::owned_of))]
pub fn owned_by(b: Block) -> Owned
    ensures { result ≡ owned_of b }
{
    let across_x = across(b.min_x, b.max_x);
    let across_y = across(b.min_y, b.max_y);
    let across_z = across(b.min_z, b.max_z);
    let along_x = along(b.min_x, b.max_x, b.max_plane_x);
    let along_y = along(b.min_y, b.max_y, b.max_plane_y);
    let along_z = along(b.min_z, b.max_z, b.max_plane_z);
    Triple {
        x: Triple {
            x: along_x,
            y: across_y,
            z: across_z,
        },
        y: Triple {
            x: across_x,
            y: along_y,
            z: across_z,
        },
        z: Triple {
            x: across_x,
            y: across_y,
            z: along_z,
        },
    }
}

// Some number lies in both.
pub(crate) fn spans_meet(a: Span, b: Span) -> bool
    ensures { result ≡ spans_meet a b }
{
    (a.from < a.to) & (b.from < b.to) & (a.from < b.to) & (b.from < a.to)
}

#[tactic(auto, unfolding(crate::specs::Region::regions_meet))]
pub(crate) fn regions_meet(a: Region, b: Region) -> bool
    ensures { result ≡ regions_meet a b }
{
    a.zip_with(b, spans_meet).all()
}

// Some edge is owned by both.
#[tactic(auto, unfolding(crate::specs::Region::owned_meet))]
pub(crate) fn owned_meet(a: Owned, b: Owned) -> bool
    ensures { result ≡ owned_meet a b }
{
    a.zip_with(b, regions_meet).any()
}

pub(crate) fn span_empty(a: Span) -> bool
    ensures { result ≡ span_empty a }
{
    a.to <= a.from
}

pub(crate) fn span_within(a: Span, w: Span) -> bool
    ensures { result ≡ span_within a w }
{
    (w.from <= a.from) & (a.to <= w.to)
}

// No point lies outside: there is none, or the box lies within on each axis.
#[tactic(auto, unfolding(crate::specs::Region::region_inside))]
pub(crate) fn region_inside(a: Region, w: Region) -> bool
    ensures { result ≡ region_inside a w }
{
    a.map(span_empty).any() | a.zip_with(w, span_within).all()
}

// Every edge that is owned here is owned by the whole.
#[tactic(auto, unfolding(crate::specs::Region::owned_inside))]
pub(crate) fn owned_inside(a: Owned, w: Owned) -> bool
    ensures { result ≡ owned_inside a w }
{
    a.zip_with(w, region_inside).all()
}
