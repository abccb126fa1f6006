// Stores: two at the bottom of a pile, the array and the replay, and one that somebody with a key alters.
#![tactic(auto)]

ghost use Rattle.std.specs.Prelude.{◌≡◌, cond};
ghost use Rattle.parts.specs.Meaning.{fit, fault};

use parts::fault::{Cause, Fault};
use parts::store::{MOST_BITS, MOST_CELLS};

pub mod altering;
pub mod array;
pub mod replay;

const BOTTOM_HEIGHT: u8 = 0;

// The size and the width that a store at the bottom was given.
#[derive(Clone, Copy)]
struct Shape {
    cells: u64,
    width: u32,
}

impl Shape {
    // Whether a store may have so many cells of so many bits. Array, check and heap each test a size and a width by two ranges: one
    // function of the lower ends would be no shorter.
    fn is_fit(self) -> bool
        ensures { result ≡ fit self.cells self.width }
    {
        (1..=MOST_CELLS).contains(&self.cells) && (1..=MOST_BITS).contains(&self.width)
    }

    // The size that the store tells: an unfit one tells 0, so that it declines every call.
    fn size(self) -> u64
        ensures { result ≡ cond (fit self.cells self.width) self.cells 0 }
    {
        if self.is_fit() { self.cells } else { 0 }
    }

    // The width that the store tells: an unfit one tells 0.
    fn width(self) -> u32
        ensures { result ≡ cond (fit self.cells self.width) self.width 0 }
    {
        if self.is_fit() { self.width } else { 0 }
    }
}

// A fault that a store at the bottom finds.
fn bottom_fault(cause: Cause, cell: u64) -> Fault
    ensures { result ≡ fault cause 0 cell }
{
    Fault {
        cause,
        height: BOTTOM_HEIGHT,
        place: cell,
    }
}
