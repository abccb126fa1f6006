// A cell of a checked memory.
ghost use Rattle.std.specs.Prelude.{◌≡◌, ℕ, ◌^◌, ◌<◌};
ghost use Rattle.memory_laws.specs.Checked.{record_of};

use std::marker::Model;

const RECORD_BASE: u64 = 281_474_976_710_656;

// The number of a cell. A store has at most 4,096 cells, so that the record of a word in one is a number below 2^60.
#[derive(Clone, Copy)]
pub struct Cell {
    number: u64,
}

impl Model for Cell {
    ghost Value = { ℕ };

    ghost view = { λ c. c.number };

    ghost invariant = { λ c. c.number < 4096 };

    ghost inverse = { λ n. record { number = n } };
}

impl Cell {
    pub(crate) fn new(number: u64) -> Cell
        requires { number < 4096 }
        ensures { result ≡ number }
    {
        Cell { number }
    }

    pub(crate) fn number(self) -> u64
        ensures { result ≡ self }
    {
        self.number
    }

    // The record of a word in the cell.
    pub(crate) fn record_of(self, word: u64) -> u64
        requires { word < 2 ^ 48 }
        ensures { result ≡ record_of self word }
    {
        self.number * RECORD_BASE + word
    }
}
