// Numbers of any size to what the words of a book hold, and back.
#![tactic(auto)]

ghost use Rattle.std.specs.Prelude.{◌≡◌, ◌*◌, ◌≤◌, ◌<◌};
ghost use Rattle.paper.specs.Procedure.{SERIES, SETS, POINTS};
ghost use Rattle.paper.specs.Units.{terms_from, in_order};
ghost use Rattle.image.specs.Lengths.{ORIGIN, len, word_or, term_words_or};
ghost use Rattle.image.specs.Places.{place_of};
ghost use Rattle.numbers.specs.Named.{place_named};

use image::{Layout, ORIGIN};
use procedure::Procedure;

// What names a place of the sheet; any three numbers, those of no place too.
#[derive(Clone, Copy)]
pub struct Place {
    pub series: u64,
    pub set: u64,
    pub point: u64,
}

// x, y and h together: a reading, what is to be one, or a residual.
#[derive(Clone, Copy)]
pub struct Reading {
    pub x: i64,
    pub y: i64,
    pub h: i64,
}

// The word of the length 0, with a sign.
const SHIFT: i64 = ORIGIN as i64;

// The least and the greatest length that have a word.
const LEAST: i64 = 1 - SHIFT;

const GREATEST: i64 = SHIFT - 1;

// The word of a length; 0 for a number that is no length.
pub fn word_of(x: i64) -> u64
    ensures { result ≡ word_or x }
{
    if (LEAST..=GREATEST).contains(&x) {
        (x + SHIFT) as u64
    } else {
        0
    }
}

// The words of twelve terms.
pub fn terms_of(terms: [i64; Layout::TERMS]) -> [u64; Layout::TERMS]
    ensures { result ≡ term_words_or (terms_from terms) }
{
    terms.map(word_of)
}

// The length of a word.
pub fn length_of(w: u64) -> i64
    requires { w < 2 * ORIGIN }
    ensures { result ≡ len w }
{
    (w as i64) - SHIFT
}

// Where a place of the sheet stands in sheet order, from 0.
fn number(place: Place) -> usize
    requires { ((1 ≤ place.series) × (place.series ≤ SERIES)) × ((1 ≤ place.set) × (place.set ≤ SETS)) × ((1 ≤ place.point) × (place.point ≤ POINTS)) }
    ensures { result ≡ in_order place.series place.set place.point }
{
    let round = (place.series - 1) as usize * Procedure::SETS + (place.set - 1) as usize;
    round * Procedure::POINTS + (place.point - 1) as usize
}

// The number of a place; the number of places where it is none.
pub fn place_of(place: Place) -> usize
    ensures { result ≡ place_of (place_named place) }
{
    if procedure::one_to(Procedure::SERIES as u64, place.series)
        & procedure::one_to(Procedure::SETS as u64, place.set)
        & procedure::one_to(Procedure::POINTS as u64, place.point)
    {
        return number(place);
    }
    Procedure::PLACES
}
