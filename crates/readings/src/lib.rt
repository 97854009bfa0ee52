// What stands at a place of a book, and how many of its changes can be taken back. Any Book at all may be handed in.
#![tactic(auto)]

ghost use Rattle.std.specs.Prelude.{◌≡◌};
ghost use Rattle.paper.specs.Units.{zeros};
ghost use Rattle.paper.specs.Calls.{read, changes};
ghost use Rattle.paper.specs.Answers.{lengths, count};
ghost use Rattle.paper.specs.Alone.{asked_alone};
ghost use Rattle.procedure.specs.Refused.{told};
ghost use Rattle.numbers.specs.Named.{place_named};
ghost use Rattle.book.specs.Meaning.{seen};
ghost use Rattle.readings.specs.Answers.{reading_in, lengths_of, count_of};

use book::Book;
use image::Layout;
use numbers::Place;
pub use numbers::Reading;
use procedure::Refusal;

// ---- what stands there

// What stands at a place.
pub fn read(b: &Book, at: Place) -> Result<Reading, Refusal>
    ensures { told reading_in (lengths zeros) result ≡ asked_alone (λ k. read k (place_named at)) (seen b.now) }
{
    let place = b.reached(at, Some(Refusal::Empty), None)?;
    let first = place * Layout::READING;
    Ok(Reading {
        x: numbers::length_of(b.cells[first]),
        y: numbers::length_of(b.cells[first + 1]),
        h: numbers::length_of(b.cells[first + 2]),
    })
}

// How many changes can be taken back.
pub fn changes(b: &Book) -> Result<u64, Refusal>
    ensures { told count (count 0) result ≡ asked_alone changes (seen b.now) }
{
    b.met()?;
    Ok(b.kept)
}

// ---- as C takes it

#[repr(C)]
#[derive(Clone, Copy)]
pub struct Lengths {
    pub refusal: u64,
    pub x: i64,
    pub y: i64,
    pub h: i64,
}

// Beside a refusal lengths are 0.
impl From<Result<Reading, Refusal>> for Lengths {
    ghost from_gives = { λ r l. l ≡ lengths_of (told reading_in (lengths zeros) r) };

    #[tactic(auto, unfolding(crate::specs::Answers::lengths_of))]
    fn from(answer: Result<Reading, Refusal>) -> Lengths {
        match answer {
            Ok(reading) => Lengths {
                refusal: 0,
                x: reading.x,
                y: reading.y,
                h: reading.h,
            },
            Err(refusal) => Lengths {
                refusal: refusal.number(),
                x: 0,
                y: 0,
                h: 0,
            },
        }
    }
}

#[repr(C)]
#[derive(Clone, Copy)]
pub struct Count {
    pub refusal: u64,
    pub count: u64,
}

// Beside a refusal a count is 0.
impl From<Result<u64, Refusal>> for Count {
    ghost from_gives = { λ r c. c ≡ count_of (told count (count 0) r) };

    #[tactic(auto, unfolding(crate::specs::Answers::count_of))]
    fn from(answer: Result<u64, Refusal>) -> Count {
        match answer {
            Ok(count) => Count { refusal: 0, count },
            Err(refusal) => Count {
                refusal: refusal.number(),
                count: 0,
            },
        }
    }
}
