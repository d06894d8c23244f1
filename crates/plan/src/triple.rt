// Three values of a kind, one on each axis.
ghost use Rattle.std.specs.Prelude.{◌≡◌, ◌&&◌, ◌||◌};

#[derive(Clone, Copy, Debug, PartialEq, Eq)]
pub struct Triple<T> {
    pub x: T,
    pub y: T,
    pub z: T,
}

impl<T: Copy> Triple<T> {
    // What f makes of each.
    pub fn map<U, F: Fn(T) -> U>(self, f: F) -> Triple<U>
        requires { F.pre f self.x × F.pre f self.y × F.pre f self.z }
        ensures { F.post f self.x result.x × F.post f self.y result.y × F.post f self.z result.z }
    {
        Triple {
            x: f(self.x),
            y: f(self.y),
            z: f(self.z),
        }
    }

    // What f makes of both, on each axis.
    pub fn zip_with<S: Copy, U, F: Fn(T, S) -> U>(self, other: Triple<S>, f: F) -> Triple<U>
        requires { F.pre f self.x other.x × F.pre f self.y other.y × F.pre f self.z other.z }
        ensures { F.post f self.x other.x result.x × F.post f self.y other.y result.y × F.post f self.z other.z result.z }
    {
        Triple {
            x: f(self.x, other.x),
            y: f(self.y, other.y),
            z: f(self.z, other.z),
        }
    }
}

impl Triple<bool> {
    pub fn all(self) -> bool
        ensures { result ≡ ((self.x && self.y) && self.z) }
    {
        self.x & self.y & self.z
    }

    pub fn any(self) -> bool
        ensures { result ≡ ((self.x || self.y) || self.z) }
    {
        self.x | self.y | self.z
    }
}
