// How a book lies in words, and a register in bytes. What these mean is in specs/.
#![tactic(auto)]

use procedure::Procedure;

mod sheets;

pub use sheets::{Full, Open};

// The lengths and the places of their parts.
#[derive(Clone, Copy)]
pub struct Layout;

impl Layout {
    // The words of a reading: x, y, h. Of a kept change: its place, and the reading that stood there.
    pub const READING: usize = 3;

    pub const CHANGE: usize = 1 + Self::READING;

    // The words of the terms, of the readings, of the kept changes.
    pub const TERMS: usize = 12;

    pub const CELLS: usize = Self::READING * Procedure::PLACES;

    pub const CHANGES: usize = Self::CHANGE * Procedure::KEPT;

    // Where they begin in the bytes of a book: behind the word that says whether it is open, and the count of the changes before these.
    pub const TERMS_AT: usize = 8;

    pub const CELLS_AT: usize = Self::TERMS_AT + 8 * Self::TERMS;

    pub const KEPT_AT: usize = Self::CELLS_AT + 8 * Self::CELLS;

    pub const CHANGES_AT: usize = Self::KEPT_AT + 8;

    // The bytes of a book, and of a register: the length that is published.
    pub const BOOK: usize = Self::CHANGES_AT + 8 * Self::CHANGES;

    pub const REGISTER: usize = Procedure::BOOKS * Self::BOOK;
}

// Where each term stands among the twelve.
#[derive(Clone, Copy)]
pub struct Term;

impl Term {
    pub const DISTANCE: usize = 0;

    pub const HEIGHT: usize = 1;

    pub const SCREEN_XY: usize = 2;

    pub const SCREEN_H: usize = 3;

    pub const SIGMA_XY: usize = 4;

    pub const SIGMA_H: usize = 5;

    pub const X1: usize = 6;

    pub const Y1: usize = 7;

    pub const H1: usize = 8;

    pub const X2: usize = 9;

    pub const Y2: usize = 10;

    pub const H2: usize = 11;
}

// The word of the length 0.
pub const ORIGIN: u64 = 1000000000000;
