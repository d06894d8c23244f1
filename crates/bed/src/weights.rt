// For C: a mesh of any size weighed, over the plane z = 0 and as seen from above. A thin function over crate weigh; include/bed.h says the rest.
ghost use Rattle.std.specs.Prelude.{◌≡◌};
ghost use Rattle.weigh.specs.Answers.{told, weight};

use weigh::Weight;

// The answer number, 0, 61, 63, 64, 75 or 76, with the sum's two words and the shadow behind the last three: all 0 on a refusal.
#[unsafe(no_mangle)]
pub extern "C" fn bed_weigh(
    positions: &[f32],
    first: u32,
    indices: &[u32],
    sum_low: &mut u64,
    sum_high: &mut i64,
    shadow: &mut i64,
) -> u32
    ensures { told result sum_low.new sum_high.new shadow.new ≡ weight positions.now first indices.now }
{
    let (answer, weight) = match weigh::weigh(positions, first, indices) {
        Ok(weight) => (0, weight),
        Err(refusal) => (u32::from(refusal), Weight::default()),
    };
    *sum_low = weight.low;
    *sum_high = weight.high;
    *shadow = weight.shadow;
    answer
}
