// A book by itself: its words, their form, and the acts on it, by value. Any Book at all may be handed in.
#![tactic(auto)]

ghost use Rattle.std.specs.Prelude.{◌≡◌, [], ◌∷◌, ◌<◌, get_or, IfOk};
ghost use Rattle.paper.specs.Procedure.{PLACES};
ghost use Rattle.paper.specs.Calls.{enter, correct, withdraw, take_back};
ghost use Rattle.image.specs.Lengths.{word_or};
ghost use Rattle.numbers.specs.Named.{place_named, triple_of};
ghost use Rattle.book.specs.Meaning.{book_form};
ghost use Rattle.book.specs.Steps.{step_of, stepped, met_of, aim_of, reached_of, sought_of, changed_of, undone_of, placed_of};

use image::Layout;
use numbers::{Place, Reading};
use procedure::{Procedure, Refusal};

// Words: a length is length + 10^12, three words 0 are an empty place; the changes kept for taking back, latest first, are four words
// each, the place and what stood there.
#[derive(Clone, Copy)]
pub struct Book {
    pub opened: u64,
    pub terms: [u64; Layout::TERMS],
    pub cells: [u64; Layout::CELLS],
    pub kept: u64,
    pub changes: [u64; Layout::CHANGES],
}

// The next book beside a refusal number, as document 01 asks; beside the refusal of an act the book is the one handed in.
#[derive(Clone, Copy)]
pub struct Step {
    pub refusal: u64,
    pub book: Book,
}

// ---- the form

// Whether a book is in form.
pub fn in_form(b: &Book) -> bool
    ensures { result ≡ book_form b.now }
{
    form::in_form(b.opened, &b.terms, &b.cells, b.kept, &b.changes)
}

// ---- what a call meets

// Where a call on a place goes: the number of what refuses it, 0 for nothing; and the number of the place.
#[derive(Clone, Copy)]
pub struct Aim {
    pub refusal: u64,
    pub place: usize,
}

impl Book {
    // What any call that needs an open book meets: REGISTER, then CLOSED.
    #[tactic(auto, unfolding(crate::specs::Steps::met_of))]
    pub fn met(&self) -> Result<(), Refusal>
        ensures { result ≡ met_of self.now }
    {
        if !in_form(self) {
            return Err(Refusal::Register);
        }
        if self.opened == 0 {
            return Err(Refusal::Closed);
        }
        Ok(())
    }

    // The number of the place that a call goes to: it meets REGISTER, PLACE, CLOSED.
    #[tactic(auto, unfolding(crate::specs::Steps::aim_of))]
    pub fn aim(&self, at: Place) -> Result<usize, Refusal>
        ensures goes { result ≡ aim_of self.now (place_named at) }
        ensures within { IfOk result (λ place. place < PLACES) }
    {
        if !in_form(self) {
            return Err(Refusal::Register);
        }
        let place = numbers::place_of(at);
        if place >= Procedure::PLACES {
            return Err(Refusal::Place);
        }
        if self.opened == 0 {
            Err(Refusal::Closed)
        } else {
            Ok(place)
        }
    }

    // The same of a call that is refused by `empty` at an empty place and by `filled` at a filled one; None refuses nothing.
    #[tactic(auto, unfolding(crate::specs::Steps::reached_of))]
    pub fn reached(
        &self,
        at: Place,
        empty: Option<Refusal>,
        filled: Option<Refusal>,
    ) -> Result<usize, Refusal>
        ensures goes { result ≡ reached_of self.now (place_named at) empty filled }
        ensures within { IfOk result (λ place. place < PLACES) }
    {
        let place = self.aim(at)?;
        let met = if places::empty_at(&self.cells, place) {
            empty
        } else {
            filled
        };
        match met {
            Some(refusal) => Err(refusal),
            None => Ok(place),
        }
    }

    // The same in numbers, whatever they are: 0 refuses nothing. The number of the place stands beside these two.
    #[tactic(auto, unfolding(crate::specs::Steps::sought_of))]
    pub fn sought(&self, at: Place, empty: u64, filled: u64) -> Aim
        ensures { result ≡ sought_of self.now (place_named at) empty filled }
    {
        match self.aim(at) {
            Ok(place) => {
                let refusal = if places::empty_at(&self.cells, place) {
                    empty
                } else {
                    filled
                };
                Aim { refusal, place }
            }
            Err(met) => Aim {
                refusal: met.number(),
                place: 0,
            },
        }
    }
}

// ---- one change

impl Book {
    // The book with three words at a place, and what stood there kept.
    #[tactic(auto, unfolding(crate::specs::Steps::changed_of))]
    fn changed(mut self, place: usize, x: u64, y: u64, h: u64) -> Book
        requires { place < PLACES }
        ensures { result ≡ changed_of self place (x ∷ y ∷ h ∷ []) }
    {
        self.changes = changes::keep(self.changes, &self.cells, place);
        self.cells = placing::put(self.cells, place, x, y, h);
        self.kept = changes::one_more(self.kept);
        self
    }

    // The book with a reading at a place; FAR where it may not stand there.
    #[tactic(auto, unfolding(crate::specs::Steps::placed_of))]
    fn placed(&self, place: usize, reading: Reading) -> Result<Book, Refusal>
        requires { place < PLACES }
        ensures { result ≡ placed_of self.now place (word_or reading.x) (word_or reading.y) (word_or reading.h) }
    {
        let x = numbers::word_of(reading.x);
        let y = numbers::word_of(reading.y);
        let h = numbers::word_of(reading.h);
        if ranges::near(&self.terms, place, x, y, h) {
            return Ok(self.changed(place, x, y, h));
        }
        Err(Refusal::Far)
    }

    // The book without its latest change.
    #[tactic(auto, unfolding(crate::specs::Steps::undone_of))]
    fn undone(mut self) -> Book
        requires { (get_or self.changes 0 0 < PLACES) × (0 < self.kept) }
        ensures { result ≡ undone_of self }
    {
        self.cells = placing::take_back(self.cells, &self.changes);
        self.changes = changes::pop(self.changes);
        self.kept -= 1;
        self
    }
}

// ---- the acts

// Each act by itself: the next book, or what refuses it.
impl Book {
    fn entered(&self, at: Place, reading: Reading) -> Result<Book, Refusal>
        ensures { stepped self.now result ≡ step_of (enter (place_named at) (triple_of reading)) self.now }
    {
        let place = self.reached(at, None, Some(Refusal::Filled))?;
        self.placed(place, reading)
    }

    fn corrected(&self, at: Place, reading: Reading) -> Result<Book, Refusal>
        ensures { stepped self.now result ≡ step_of (correct (place_named at) (triple_of reading)) self.now }
    {
        let place = self.reached(at, Some(Refusal::Empty), None)?;
        self.placed(place, reading)
    }

    fn withdrawn(&self, at: Place) -> Result<Book, Refusal>
        ensures { stepped self.now result ≡ step_of (withdraw (place_named at)) self.now }
    {
        let place = self.reached(at, Some(Refusal::Empty), None)?;
        Ok(self.changed(place, 0, 0, 0))
    }

    fn taken_back(&self) -> Result<Book, Refusal>
        ensures { stepped self.now result ≡ step_of take_back self.now }
    {
        self.met()?;
        if self.kept == 0 {
            return Err(Refusal::Nothing);
        }
        Ok(self.undone())
    }
}

// Each act as a step.
impl Book {
    // The next book, or what refuses an act, as a step from this book.
    pub fn step(self, next: Result<Book, Refusal>) -> Step
        ensures { result ≡ stepped self next }
    {
        match next {
            Ok(book) => Step { refusal: 0, book },
            Err(refusal) => Step {
                refusal: refusal.number(),
                book: self,
            },
        }
    }

    // Enter a reading at an empty place.
    pub fn enter(self, at: Place, reading: Reading) -> Step
        ensures { result ≡ step_of (enter (place_named at) (triple_of reading)) self }
    {
        self.step(self.entered(at, reading))
    }

    // Correct the reading at a filled place.
    pub fn correct(self, at: Place, reading: Reading) -> Step
        ensures { result ≡ step_of (correct (place_named at) (triple_of reading)) self }
    {
        self.step(self.corrected(at, reading))
    }

    // Withdraw the reading at a filled place.
    pub fn withdraw(self, at: Place) -> Step
        ensures { result ≡ step_of (withdraw (place_named at)) self }
    {
        self.step(self.withdrawn(at))
    }

    // Take the latest change back.
    pub fn take_back(self) -> Step
        ensures { result ≡ step_of take_back self }
    {
        self.step(self.taken_back())
    }
}
