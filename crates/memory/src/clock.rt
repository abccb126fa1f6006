// The numbers of a checked memory.
ghost use Rattle.std.specs.Prelude.{◌≡◌, ◌+◌, ◌^◌, ◌<◌, ◌≤◌, SomeIff};
ghost use Rattle.memory_laws.specs.Checked.{word_of};

use super::cell::Cell;

// The size, the width of the values and the time. The type keeps the time in the range of a stamp, so that no call tests it.
#[derive(Clone, Copy)]
pub struct Clock {
    pub size: u64,
    pub width: u32,
    pub time: u64,
    ghost in_range: { time ≤ 1048575 },
    ghost few: { size ≤ 4096 },
    ghost narrow: { width ≤ 28 },
}

pub(crate) fn power(bits: u32) -> u64
    requires { bits < 64 }
    ensures { result ≡ 2 ^ bits }
{
    1u64 << bits
}

impl Clock {
    // How many cells a making and a sweep take, from 0 up: all.
    pub(crate) fn cells(&self) -> u64
        ensures { result ≡ self.now.size }
    {
        self.size
    }

    // The cell of that number, if there is one.
    pub(crate) fn cell(&self, number: u64) -> Option<Cell>
        ensures { SomeIff result (number < self.now.size) number }
    {
        if number < self.size {
            Some(Cell::new(number))
        } else {
            None
        }
    }

    // Raises the clock, and makes the word of the value with that stamp.
    pub(crate) fn stamped(&mut self, value: u64) -> u64
        requires { (self.old.time < 1048575) × (value < 2 ^ self.old.width) }
        ensures word { result ≡ word_of self.old.width (self.old.time + 1) value }
        ensures below { result < 2 ^ 48 }
        ensures size { self.new.size ≡ self.old.size }
        ensures width { self.new.width ≡ self.old.width }
        ensures time { self.new.time ≡ self.old.time + 1 }
    {
        self.time += 1;
        self.time * power(self.width) + value
    }
}
