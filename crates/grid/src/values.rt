// The distances of a grid: floats, or whole numbers of 16 or of 8 bits that each mean the float of the same value (document 02, request 5). All that reads a
// grid is written once, for every type that is a `Distance`; a distance is read as a float where it stands, so that no converted copy of the grid is made.
ghost use Rattle.std.specs.Prelude.{◌≡◌, refl, ◌<◌, map, length, get_or, List, Float};
ghost use Rattle.std.specs.Float.{nan, binary32};
ghost use Rattle.std.specs.Float.Ieee.{of_int};
ghost use Rattle.lists.specs.Floats.{Binary32};
ghost use Rattle.rules.specs.Call.{beyond};
ghost use Rattle.grid.specs.Values.{as_floats, floats-themselves, Wholes};

// What a number of a grid is: the float that it means, and whether that is let in. A type says the second too, since no whole number of 16 or of 8 bits is
// beyond the cap, and nothing need be asked of one.
pub trait Distance: Copy {
    ghost value: { Self → Float };

    // The distances that a list of them means.
    ghost floats: { List Self → List Float };

    fn float(self) -> f32
        ensures { result ≡ value self };

    fn is_beyond(self) -> bool
        ensures { result ≡ beyond (value self) };

    // What is known of the numbers of any list of this type. The lists themselves tell it: nothing is done, and it is handed on.
    ghost held: { List Self → Type 0 };

    fn told(list: &[Self])
        ensures { held list.now };

    ghost floats_are: { (l : List Self) → floats l ≡ map value l };
}

impl Distance for f32 {
    ghost value = { λ x. x };

    ghost floats = { λ l. l };

    fn float(self) -> f32 {
        self
    }

    // No comparison holds of not-a-number, so it is beyond too; and there is no branch, since every distance of the box is asked.
    fn is_beyond(self) -> bool {
        !((-crate::scan::CAP <= self) & (self <= crate::scan::CAP))
    }

    ghost held = { Binary32 };

    fn told(list: &[f32]) {}

    ghost floats_are = { floats-themselves };
}

impl Distance for i16 {
    ghost value = { of_int binary32 };

    ghost floats = { as_floats };

    fn float(self) -> f32 {
        self as f32
    }

    fn is_beyond(self) -> bool {
        false
    }

    ghost held = { Wholes 16 };

    fn told(list: &[i16]) {}

    ghost floats_are = { λ l. refl };
}

impl Distance for i8 {
    ghost value = { of_int binary32 };

    ghost floats = { as_floats };

    // As a number of 16 bits it is the same.
    fn float(self) -> f32 {
        (self as i16).float()
    }

    fn is_beyond(self) -> bool {
        false
    }

    ghost held = { Wholes 8 };

    fn told(list: &[i8]) {}

    ghost floats_are = { λ l. refl };
}

// The distance at place i.
pub fn value_at<D: Distance>(list: &[D], i: usize) -> f32
    requires { i < length (D.floats list.now) }
    ensures { result ≡ get_or (D.floats list.now) i nan }
{
    list[i].float()
}
