// Document 02, request 14, for C: six times the volume of a mesh. A thin function over crate volume; include/bed.h says the rest.
ghost use Rattle.std.specs.Prelude.{◌≡◌};
ghost use Rattle.volume.specs.Answers.{weighed, weighing};

// The answer number, 0 or 61 to 64, with six times the volume behind `volume`: 0 on a refusal.
#[unsafe(no_mangle)]
pub extern "C" fn bed_volume(positions: &[f32], indices: &[u32], volume: &mut i64) -> u32
    ensures { weighed result volume.new ≡ weighing positions.now indices.now }
{
    let (answer, sum) = match volume::volume(positions, indices) {
        Ok(sum) => (0, sum),
        Err(refusal) => (u32::from(refusal), 0),
    };
    *volume = sum;
    answer
}
