// What of a reading is summed.

ghost use Rattle.std.specs.Prelude.{◌≡◌};
ghost use Rattle.sums.specs.Coordinates.{index_of};

#[derive(Clone, Copy, PartialEq, Eq)]
pub enum Coordinate {
    X,
    Y,
    H,
}

impl Coordinate {
    // Where its word stands in a reading.
    pub fn index(self) -> usize
        ensures { result ≡ index_of self }
    {
        match self {
            Coordinate::X => 0,
            Coordinate::Y => 1,
            Coordinate::H => 2,
        }
    }
}
