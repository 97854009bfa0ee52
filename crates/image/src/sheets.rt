// The words of an open book in form, and of one whose places are all filled: the terms and the cells together, with what is known of them.

ghost use Rattle.image.specs.Ready.{Ready};
ghost use Rattle.image.specs.Sights.{Formed};

use crate::Layout;

// An open book in form.
#[derive(Clone, Copy)]
pub struct Open<'a> {
    pub terms: &'a [u64; Layout::TERMS],
    pub cells: &'a [u64; Layout::CELLS],
    pub ghost formed: { Formed terms.now cells.now },
}

// A full book in form.
#[derive(Clone, Copy)]
pub struct Full<'a> {
    pub terms: &'a [u64; Layout::TERMS],
    pub cells: &'a [u64; Layout::CELLS],
    pub ghost ready: { Ready terms.now cells.now },
}
