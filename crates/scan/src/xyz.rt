// What each of the three axes holds.
ghost use Rattle.std.specs.Prelude.{◌≡◌};

#[derive(Clone, Copy)]
pub struct Xyz<T> {
    pub x: T,
    pub y: T,
    pub z: T,
}

impl<T: Copy> Xyz<T> {
    // What f makes of each.
    pub fn map<U, F: Fn(T) -> U>(self, f: F) -> Xyz<U>
        requires { F.pre f self.x × F.pre f self.y × F.pre f self.z }
        ensures { F.post f self.x result.x × F.post f self.y result.y × F.post f self.z result.z }
    {
        Xyz {
            x: f(self.x),
            y: f(self.y),
            z: f(self.z),
        }
    }

    // What f makes of each with what the other holds on that axis.
    pub fn with<U: Copy, V, F: Fn(T, U) -> V>(self, other: Xyz<U>, f: F) -> Xyz<V>
        requires { F.pre f self.x other.x × F.pre f self.y other.y × F.pre f self.z other.z }
        ensures { F.post f self.x other.x result.x × F.post f self.y other.y result.y
            × F.post f self.z other.z result.z }
    {
        Xyz {
            x: f(self.x, other.x),
            y: f(self.y, other.y),
            z: f(self.z, other.z),
        }
    }
}

// The axes by their numbers.
pub const AXES: Xyz<usize> = Xyz { x: 0, y: 1, z: 2 };
