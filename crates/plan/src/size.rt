// How many points a box of points has. Three sides of up to 2^24 make a number of up to 2^72: the product of two sides is parted at 24 bits, each
// part is multiplied by the third, and the parts are summed apart. A sum is carried once, where two are compared.
ghost use Rattle.std.specs.Prelude.{◌≡◌, ◌*◌, ◌^◌};
ghost use Rattle.plan.specs.Size.{side_of, Small, size_of, sizes_of, SmallAll, added, added_all, Most, MostAll, same_sum, same_sums};

use crate::region::{Owned, Region, Span};
use crate::triple::Triple;

// The number high · 2^24 + low.
#[derive(Clone, Copy, Debug, PartialEq, Eq)]
pub(crate) struct Sum {
    pub high: u64,
    pub low: u64,
}

// How many x, y and z edges.
pub(crate) type Sums = Triple<Sum>;

pub(crate) fn side(a: Span) -> u64
    ensures { result ≡ side_of a }
{
    if a.to <= a.from {
        return 0;
    }
    a.to - a.from
}

#[tactic(auto, unfolding(crate::specs::Size::size_of))]
pub(crate) fn size(a: Region) -> Sum
    requires { Small a }
    ensures { result ≡ size_of a }
{
    let width = side(a.x);
    let depth = side(a.y);
    let height = side(a.z);
    let plane = width * depth;
    Sum {
        high: (plane / 16777216) * height,
        low: (plane % 16777216) * height,
    }
}

pub(crate) fn sizes(a: Owned) -> Sums
    requires { SmallAll a }
    ensures { result ≡ sizes_of a }
{
    a.map(size)
}

pub(crate) fn add(a: Sum, b: Sum) -> Sum
    requires { Most (200 * 2 ^ 48) a × Most (2 ^ 48) b }
    ensures { result ≡ added a b }
{
    Sum {
        high: a.high + b.high,
        low: a.low + b.low,
    }
}

pub(crate) fn add_all(a: Sums, b: Sums) -> Sums
    requires { MostAll (200 * 2 ^ 48) a × MostAll (2 ^ 48) b }
    ensures { result ≡ added_all a b }
{
    a.zip_with(b, add)
}

// Carried once.
#[tactic(auto, unfolding(crate::specs::Size::same_sum))]
pub(crate) fn same(a: Sum, b: Sum) -> bool
    requires { Most (200 * 2 ^ 48) a × Most (2 ^ 48) b }
    ensures { result ≡ same_sum a b }
{
    (a.low % 16777216 == b.low % 16777216)
        & (a.high + a.low / 16777216 == b.high + b.low / 16777216)
}

pub(crate) fn same_all(a: Sums, b: Sums) -> bool
    requires { MostAll (200 * 2 ^ 48) a × MostAll (2 ^ 48) b }
    ensures { result ≡ same_sums a b }
{
    a.zip_with(b, same).all()
}
