// The comparison of two open books, from their words.
#![tactic(auto)]

ghost use Rattle.std.specs.Prelude.{◌≡◌, ◌≤◌};
ghost use Rattle.paper.specs.Verdicts.{sum, same_population};
ghost use Rattle.image.specs.Lengths.{terms_of};
ghost use Rattle.image.specs.Places.{places_of};
ghost use Rattle.image.specs.Sights.{sight_of};
ghost use Rattle.sums.specs.Sums.{Modest};
ghost use Rattle.comparison.specs.Axes.{axis_number};
ghost use Rattle.comparison.specs.Comparing.{comparison_to, comparison_told, alike_by, by_sums};

use image::{Full, Open};
use procedure::Refusal;

mod axis;

pub use axis::Axis;

// P for xy, Qh for h.
fn total(book: Full<'_>, axis: Axis) -> u64
    ensures { (result ≡ sum (axis_number axis) (terms_of book.entry.terms.now) (places_of book.entry.cells.now)) × Modest result }
{
    let s = sums::sums(book);
    match axis {
        Axis::Xy => s.p,
        Axis::H => s.qh,
    }
}

// Whether low · second <= 100 · first <= high · second.
fn alike(low: u64, high: u64, first: u64, second: u64) -> bool
    requires { (low ≤ 100) × (high ≤ 1000) × Modest first × Modest second }
    ensures { result ≡ alike_by low high first second }
{
    let middle = 100 * first;
    let least = low * second;
    let most = high * second;
    (least <= middle) & (middle <= most)
}

// Whether two sums are of the same population.
fn same_population(axis: Axis, first: u64, second: u64) -> bool
    requires { Modest first × Modest second }
    ensures { result ≡ same_population (axis_number axis) first second }
{
    match axis {
        Axis::Xy => alike(59, 170, first, second),
        Axis::H => alike(47, 213, first, second),
    }
}

// The comparison of two sums: ZERO, or whether they are of the same population.
fn by_sums(axis: Axis, first: u64, second: u64) -> Result<bool, Refusal>
    requires { Modest first × Modest second }
    ensures { result ≡ by_sums (axis_number axis) first second }
{
    if second == 0 {
        return Err(Refusal::Zero);
    }
    Ok(same_population(axis, first, second))
}

// The comparison of two books: SHORT, SUSPECT at the first suspect set, the first book first, ZERO, or whether they are of the same
// population.
pub fn compare(first: Open<'_>, second: Open<'_>, axis: Axis) -> Result<bool, Refusal>
    ensures { comparison_told result ≡ comparison_to (axis_number axis) (sight_of first.entry.terms.now first.entry.cells.now) (sight_of second.entry.terms.now second.entry.cells.now) }
{
    let one = places::full(first).ok_or(Refusal::Short)?;
    let other = places::full(second).ok_or(Refusal::Short)?;
    if let Some(suspect) = screen::first_suspect(one) {
        return Err(Refusal::Suspect(suspect));
    }
    match screen::first_suspect(other) {
        Some(suspect) => Err(Refusal::Suspect(suspect)),
        None => by_sums(axis, total(one, axis), total(other, axis)),
    }
}
