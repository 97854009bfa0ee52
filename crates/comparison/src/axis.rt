// What two books are compared along.

ghost use Rattle.std.specs.Prelude.{◌≡◌, false, MatchResult};
ghost use Rattle.paper.specs.Units.{one_to};
ghost use Rattle.procedure.specs.declared.refusal.Refusal.TheVariants.{Place};
ghost use Rattle.comparison.specs.Axes.{axis_number};

use procedure::Refusal;

#[derive(Clone, Copy, PartialEq, Eq)]
pub enum Axis {
    Xy,
    H,
}

// By its number in a call: 1 is xy, 2 is h.
impl TryFrom<u64> for Axis {
    type Error = Refusal;

    ghost try_from_gives = { λ n r. MatchResult r (λ a. axis_number a ≡ n) (λ e. (one_to 2 n ≡ false) × (e ≡ Place)) };

    fn try_from(number: u64) -> Result<Axis, Refusal> {
        match number {
            1 => Ok(Axis::Xy),
            2 => Ok(Axis::H),
            _ => Err(Refusal::Place),
        }
    }
}
