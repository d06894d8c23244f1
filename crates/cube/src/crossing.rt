// Whether the surface crosses an edge, from the values at its two ends, and where.
ghost use Rattle.std.specs.Prelude.{◌≡◌};
ghost use Rattle.rules.specs.Cell.{negative};
ghost use Rattle.cube.specs.AsRules.{fraction_of, crossing_of};

// "Negative means d < 0, so 0 and -0.0 are not negative."
pub fn negative(d: f32) -> bool
    ensures { result ≡ negative d }
{
    d < 0.0
}

// "Edge a-b crosses if exactly one end is negative. Fraction f = da / (da - db)": none without a crossing, and else how far it is from the first end to the
// second.
#[tactic(auto, unfolding(rules::specs::Cell::fraction))]
pub fn estimate_surface_edge_intersection(value1: f32, value2: f32) -> Option<f32>
    ensures { fraction_of result ≡ crossing_of value1 value2 }
{
    if negative(value1) == negative(value2) {
        return None;
    }
    Some(value1 / (value1 - value2))
}
