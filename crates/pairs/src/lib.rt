// What is asked of two books by themselves: comparison. Any two Books at all may be handed in.
#![tactic(auto)]

ghost use Rattle.std.specs.Prelude.{◌≡◌};
ghost use Rattle.paper.specs.Alone.{compared_alone};
ghost use Rattle.book.specs.Meaning.{seen};
ghost use Rattle.comparison.specs.Comparing.{comparison_told};
ghost use Rattle.pairs.specs.Asked.{axis_met};

use book::Book;
use comparison::Axis;
use image::Open;
use procedure::Refusal;

// The axis of a comparison; it meets REGISTER, PLACE and CLOSED, each looked for in both books.
fn axis_met(first: &Book, second: &Book, axis: u64) -> Result<Axis, Refusal>
    ensures { result ≡ axis_met first.now second.now axis }
{
    if !(book::in_form(first) & book::in_form(second)) {
        return Err(Refusal::Register);
    }
    let axis = Axis::try_from(axis)?;
    if (first.opened == 0) | (second.opened == 0) {
        return Err(Refusal::Closed);
    }
    Ok(axis)
}

// The comparison of two books, the first against the second: axis 1 is xy, 2 is h.
pub fn compare(first: &Book, second: &Book, axis: u64) -> Result<bool, Refusal>
    ensures { comparison_told result ≡ compared_alone axis (seen first.now) (seen second.now) }
{
    let axis = axis_met(first, second, axis)?;
    let one = Open {
        terms: &first.terms,
        cells: &first.cells,
    };
    let other = Open {
        terms: &second.terms,
        cells: &second.cells,
    };
    comparison::compare(one, other, axis)
}
