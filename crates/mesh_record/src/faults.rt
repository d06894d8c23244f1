// The faults of one record, by its kind: in one record the lowest number answers (document 02, request 2).
#![tactic(auto, unfolding(crate::proofs::Opened::faults))]

ghost use Rattle.std.specs.Prelude.{◌≡◌, ℕ, Bool, false};
ghost use Rattle.mesh_record.specs.Faults.{bad_sum, three_finite, fault_of, numbers_of, found_of, seen};

use crate::{Counts, Refusal, Step, Words, finite_bits, sum_of};

fn three_finite(a: u32, b: u32, c: u32) -> bool
    ensures { result ≡ three_finite a b c }
{
    finite_bits(a) && finite_bits(b) && finite_bits(c)
}

// A vertex comes before all triangles, and its floats are finite.
fn check_vertex(w: Words, seen: Counts) -> Result<Step, Refusal>
    requires sum { bad_sum w ≡ false }
    requires kind { w.kind ≡ 1 }
    ensures { (more : Bool) → numbers_of result ≡ found_of (fault_of w seen more) w.kind }
{
    if seen.triangles != 0 {
        return Err(Refusal::BadKind);
    }
    if !three_finite(w.a, w.b, w.c) || !three_finite(w.d, w.e, w.f) {
        return Err(Refusal::FloatNotFinite);
    }
    Ok(Step::Vertex)
}

// The last three words of a triangle are zero, and its indices are of vertices before it.
fn check_triangle(w: Words, vertices: usize) -> Result<Step, Refusal>
    requires sum { bad_sum w ≡ false }
    requires kind { w.kind ≡ 2 }
    ensures { (triangles : ℕ) (more : Bool) → numbers_of result ≡ found_of (fault_of w (seen vertices triangles) more) w.kind }
{
    if w.d != 0 || w.e != 0 || w.f != 0 {
        return Err(Refusal::NotZero);
    }
    if w.a as usize >= vertices || w.b as usize >= vertices || w.c as usize >= vertices {
        return Err(Refusal::IndexWithoutVertex);
    }
    Ok(Step::Triangle)
}

// The last four words of a closing record are zero, its counts those of the records before it, and nothing comes after.
fn check_closing(w: Words, seen: Counts, more: bool) -> Result<Step, Refusal>
    requires sum { bad_sum w ≡ false }
    requires kind { w.kind ≡ 3 }
    ensures { numbers_of result ≡ found_of (fault_of w seen more) w.kind }
{
    if w.c != 0 || w.d != 0 || w.e != 0 || w.f != 0 {
        return Err(Refusal::NotZero);
    }
    if w.a as usize != seen.vertices || w.b as usize != seen.triangles {
        return Err(Refusal::WrongCounts);
    }
    if more {
        return Err(Refusal::BytesAfterClosing);
    }
    Ok(Step::Closed)
}

// The sum comes first, then the kind and what is asked of it.
pub(crate) fn check_words(w: Words, seen: Counts, more: bool) -> Result<Step, Refusal>
    ensures { numbers_of result ≡ found_of (fault_of w seen more) w.kind }
{
    if w.sum != sum_of(&[w.kind, w.a, w.b, w.c, w.d, w.e, w.f]) {
        return Err(Refusal::BadSum);
    }
    match Step::try_from(w.kind)? {
        Step::Vertex => check_vertex(w, seen),
        Step::Triangle => check_triangle(w, seen.vertices),
        Step::Closed => check_closing(w, seen, more),
    }
}
