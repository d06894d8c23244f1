// Fixtures cut out of one layer of a grid, into floats of another list (document 02, requests 5 and 11): the layer's numbers are floats, or whole numbers of 16 or
// of 8 bits that each mean the float of the same value. What is cut is no whole number, so that the layer is only read. No function asks anything of its caller.
#![tactic(auto)]

ghost use Rattle.std.specs.Prelude.{◌≡◌, length};
ghost use Rattle.grid.specs.Block.{point};
ghost use Rattle.fixture_widths.specs.Into.{into_answer, cut_into};
ghost use Rattle.fixture_widths.specs.Refused.{number_of, answer_of};

use grid::Extent;
use grid::values::Distance;

// Why nothing is cut: for what a layer is refused that is cut in its place, or since the other list is shorter than the layer.
#[derive(Clone, Copy, Debug, PartialEq, Eq)]
pub enum Refusal {
    Layer(fixtures::Refusal),
    Room,
}

impl From<fixtures::Refusal> for Refusal {
    ghost use Rattle.fixture_widths.specs.declared.Refusal.TheVariants.{Layer};

    ghost from_gives = { λ layers refusal. refusal ≡ Layer layers };

    fn from(refusal: fixtures::Refusal) -> Refusal {
        Refusal::Layer(refusal)
    }
}

// Document 02's number.
impl From<Refusal> for u32 {
    ghost from_gives = { λ refusal number. number ≡ number_of refusal };

    fn from(refusal: Refusal) -> u32 {
        match refusal {
            Refusal::Layer(refusal) => u32::from(refusal),
            Refusal::Room => 82,
        }
    }
}

// The numbers as floats, in a list of the same length.
fn put_floats<D: Distance>(layer: &[D], out: &mut [f32])
    requires { length (D.floats layer.now) ≡ length out.old }
    ensures { out.new ≡ D.floats layer.now }
{
    for (i, d) in layer.iter().enumerate() {
        out[i] = d.float();
    }
}

// A refusal changes nothing.
pub fn cut_fixtures_layer<D: Distance>(
    file: &[u8],
    layer: &[D],
    dims: Extent,
    z: u32,
    out: &mut [f32],
) -> Result<(), Refusal>
    ensures value { answer_of result ≡ into_answer file.now (point dims) z (length (D.floats layer.now)) (length out.old) }
    ensures out_after { out.new ≡ cut_into file.now (point dims) z (D.floats layer.now) out.old }
{
    fixtures::layer_answer(file, dims, z, layer.len())?;
    if out.len() < layer.len() {
        return Err(Refusal::Room);
    }
    let part = &mut out[..layer.len()];
    put_floats(layer, part);
    fixtures::cut_fixtures_layer(file, dims, z, part)?;
    Ok(())
}
