// The two sums so far, each with a bias for each triangle, and what they are without.
ghost use Rattle.std.specs.Prelude.{◌≡◌, ◌+◌, ◌*◌, ◌^◌, ◌<◌, ◌≤◌, false, pos, ◌-ℤ◌};
ghost use Rattle.weigh.specs.Answers.{wide, says, told};
ghost use Rattle.weigh.specs.Biased.{Low, Holds, Adds, kept};

use crate::Weight;
use crate::triangle::{pillar_of, shadow_of};
use volume::Corner;

// The sum is high · 2^32 + low.
#[derive(Clone, Copy, Debug, PartialEq, Eq, Default)]
pub(crate) struct Total {
    pub high: u64,
    pub low: u64,
    pub shadow: u64,
}

impl Total {
    fn add(self, pillar: u64, shadow: u64) -> Total
        requires holds { Holds (2 ^ 33) self }
        requires pillar_bound { pillar ≤ 2 ^ 57 }
        requires shadow_bound { shadow ≤ 2 ^ 22 }
        ensures result_value { kept result ≡ kept self + pillar }
        ensures shadow_value { result.shadow ≡ self.shadow + shadow }
        ensures low_bound { result.low < 2 ^ 32 }
    {
        let sum = self.low + pillar;
        Total {
            high: self.high + sum / 4294967296,
            low: sum % 4294967296,
            shadow: self.shadow + shadow,
        }
    }

    // One triangle more.
    pub(crate) fn with(self, a: Corner, b: Corner, c: Corner) -> Total
        requires holds { Holds (2 ^ 33) self }
        requires low { Low a }
        requires low_2 { Low b }
        requires low_3 { Low c }
        requires c_value { wide a b c ≡ false }
        ensures { Adds a b c self result }
    {
        let shadow = shadow_of(a, b, c);
        self.add(pillar_of(a.z + b.z + c.z, shadow), shadow)
    }

    // With the biases of 2^33 triangles the sum is 2^88 too large, which is 2^24 · 2^64.
    pub(crate) fn without_bias(self, triangles: u64) -> Weight
        requires holds { Holds triangles self }
        requires triangles_bound { triangles ≤ 2 ^ 33 }
        ensures { told 0 result.low result.high result.shadow ≡ says 0 (pos (kept self) -ℤ pos (triangles * 2 ^ 55)) (pos self.shadow -ℤ pos (triangles * 2 ^ 21)) }
    {
        let high = self.high + (8589934592 - triangles) * 8388608;
        let low = high % 4294967296 * 4294967296 + self.low;
        let above = (high / 4294967296) as i64;
        let shadow = self.shadow as i64;
        Weight {
            low,
            high: above - 16777216,
            shadow: shadow - (triangles * 2097152) as i64,
        }
    }
}
