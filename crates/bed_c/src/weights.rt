// The exports of bed/src/weights.rt: each calls the library's function, and its clauses are that function's.
ghost use Rattle.std.specs.Prelude.{◌≡◌};
ghost use Rattle.weigh.specs.Answers.{told, weight};

// The answer number, 0, 61, 63, 64, 75 or 76, with the sum's two words and the shadow behind the last three: all 0 on a refusal.
#[unsafe(no_mangle)]
pub extern "C" fn bed_weigh(
    positions: &[f32],
    first: u32,
    indices: &[u32],
    sum_low: &mut u64,
    sum_high: &mut i64,
    shadow: &mut i64,
) -> u32
    ensures { told result sum_low.new sum_high.new shadow.new ≡ weight positions.now first indices.now }
{
    bed::weights::bed_weigh(positions, first, indices, sum_low, sum_high, shadow)
}
