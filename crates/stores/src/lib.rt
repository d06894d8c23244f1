// Stores of a few numbers in a row into one lent list: a vector, the three numbers of a cell, the six of a face.
#![tactic(auto)]

ghost use Rattle.std.specs.Prelude.{◌≡◌, ◌∷◌, [], ◌+◌, ◌<◌, length};
ghost use Rattle.std.proofs.lemmas.List.Edits.{sets};

use cube::Point;

pub fn put_three<T: Copy>(list: &mut [T], at: usize, x: T, y: T, z: T)
    requires { at + 2 < length list.old }
    ensures { list.new ≡ sets list.old at (x ∷ y ∷ z ∷ []) }
{
    list[at] = x;
    list[at + 1] = y;
    list[at + 2] = z;
}

pub fn put_vector(list: &mut [f32], at: usize, p: Point)
    requires { at + 2 < length list.old }
    ensures { list.new ≡ sets list.old at (p.x ∷ p.y ∷ p.z ∷ []) }
{
    put_three(list, at, p.x, p.y, p.z);
}

pub fn put_six<T: Copy>(list: &mut [T], at: usize, a: T, b: T, c: T, d: T, e: T, f: T)
    requires { at + 5 < length list.old }
    ensures { list.new ≡ sets list.old at (a ∷ b ∷ c ∷ d ∷ e ∷ f ∷ []) }
{
    put_three(list, at, a, b, c);
    put_three(list, at + 3, d, e, f);
}
