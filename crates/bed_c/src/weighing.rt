// The exports of bed/src/weighing.rt: each calls the library's function, and its clauses are that function's.
ghost use Rattle.std.specs.Prelude.{◌≡◌};
ghost use Rattle.volume.specs.Answers.{weighed, weighing};

// The answer number, 0 or 61 to 64, with six times the volume behind `volume`: 0 on a refusal.
#[unsafe(no_mangle)]
pub extern "C" fn bed_volume(positions: &[f32], indices: &[u32], volume: &mut i64) -> u32
    ensures { weighed result volume.new ≡ weighing positions.now indices.now }
{
    bed::weighing::bed_volume(positions, indices, volume)
}
