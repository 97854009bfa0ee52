// What refuses a call on a book of a lent register, and the book put back under its number.
#![tactic(auto)]

ghost use Rattle.std.specs.Prelude.{◌≡◌, length};
ghost use Rattle.paper.specs.Answers.{unless};
ghost use Rattle.lent.specs.Image.{LENGTH};
ghost use Rattle.shelving.specs.Steps.{turned_away, addressed_of, placed_at};

use book::Step;
use image::Layout;
use procedure::Refusal;

// What a call on the book of that number is refused by, where the book met this: REGISTER comes first, then PLACE.
#[tactic(auto, unfolding(crate::specs::Steps::turned_away))]
pub fn turned_away(book: u64, met: u64) -> u64
    ensures { result ≡ turned_away book met }
{
    if met == Refusal::Register.number() {
        return met;
    }
    if lent::is_book(book) {
        return met;
    }
    Refusal::Place.number()
}

// The same of a question, where the book answered this: a step bears a number, an answer its refusal.
#[tactic(auto, unfolding(crate::specs::Steps::addressed_of))]
pub fn addressed<T: Copy>(book: u64, answer: Result<T, Refusal>) -> Result<T, Refusal>
    ensures { result ≡ addressed_of book answer }
{
    match answer {
        Err(Refusal::Register) => answer,
        _ if lent::is_book(book) => answer,
        _ => Err(Refusal::Place),
    }
}

// The next book put back under its number; beside a refusal nothing is written.
pub fn put_back(register: &mut [u8], book: u64, s: Step) -> u64
    requires { s.refusal ≡ 0 → length register.old ≡ LENGTH }
    ensures { (result ≡ turned_away book s.refusal) × (register.new ≡ unless (turned_away book s.refusal) (placed_at register.old book s.book) register.old) }
{
    let refusal = turned_away(book, s.refusal);
    if refusal != 0 {
        return refusal;
    }
    stored::store(register, ((book - 1) as usize) * Layout::BOOK, s.book);
    0
}
