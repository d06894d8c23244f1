// What is asked of the lists lent before they are summed: crate weigh asks the same, within wider bounds.
ghost use Rattle.std.specs.Prelude.{◌≡◌, ◌/◌, ◌||◌, leb, ltb, length};
ghost use Rattle.lists.specs.Lists.{some};
ghost use Rattle.volume.specs.Steps.{is_past};
ghost use Rattle.volume.specs.Answers.{not_threes, not_from};

pub fn not_in_threes(positions: &[f32], indices: &[u32]) -> bool
    ensures { result ≡ (not_threes (length positions.now) || not_threes (length indices.now)) }
{
    (positions.len() % 3 != 0) | (indices.len() % 3 != 0)
}

pub fn has_more_triangles(indices: &[u32], most: usize) -> bool
    ensures { result ≡ ltb most (length indices.now / 3) }
{
    most < indices.len() / 3
}

// A comparison of floats is exact, and none holds of a not-a-number.
fn is_past(x: f32, most: f32) -> bool
    ensures { result ≡ is_past most x }
{
    !((0.0 <= x) & (x <= most))
}

// Whether some coordinate of a part is past, to the part's end, which is quicker than to leave at the first.
fn past_in(part: &[f32], most: f32) -> bool
    ensures { result ≡ some (is_past most) part.now }
{
    part.iter()
        .fold(false, |found, &x| found | is_past(x, most))
}

// Every coordinate is looked at, whether or not a triangle has its vertex; but none past the part of 1,024 with the first that is past.
pub fn some_past(positions: &[f32], most: f32) -> bool
    ensures { result ≡ some (is_past most) positions.now }
{
    for part in positions.chunks(1024) {
        if past_in(part, most) {
            return true;
        }
    }
    false
}

fn without_vertex_in(part: &[u32], first: u32, end: usize) -> bool
    ensures { result ≡ some (not_from first end) part.now }
{
    part.iter().fold(false, |found, &v| found | (v < first) | (end <= v as usize))
}

// Whether some index has no vertex, where these are numbered from `first` to just before `end`; part by part too.
pub fn some_without_vertex(indices: &[u32], first: u32, end: usize) -> bool
    ensures { result ≡ some (not_from first end) indices.now }
{
    for part in indices.chunks(1024) {
        if without_vertex_in(part, first, end) {
            return true;
        }
    }
    false
}
