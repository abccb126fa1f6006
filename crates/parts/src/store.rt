// What a store is: cells numbered from 0, each with a word of so many bits.
ghost use Rattle.std.specs.Prelude.{◌≡◌};
ghost use Rattle.parts.specs.Meaning.{Meaning, Keeps};

use super::fault::Fault;

// The most cells that a store has, and the most bits that a word has.
pub const MOST_CELLS: u64 = 4096;

pub const MOST_BITS: u32 = 48;

pub trait Store {
    // The store as a machine of plain values: its states, which of them are loyal, their cells, and each call's outcome.
    ghost meaning: { Meaning };

    // The state that the value is in.
    ghost state: { Self → meaning.State };

    // What every loyal state keeps. A disloyal one owes nothing but the outcomes that the machine tells.
    ghost keeps: { Keeps meaning };

    // The number of cells.
    fn size(&self) -> u64
        ensures { result ≡ meaning.size (state self.now) };

    // The bits of a word.
    fn width(&self) -> u32
        ensures { result ≡ meaning.width (state self.now) };

    // How many parts stand below this one, at most 255.
    fn height(&self) -> u8
        ensures { result ≡ meaning.height (state self.now) };

    fn read(&mut self, cell: u64) -> Result<u64, Fault>
        ensures answer { result ≡ (meaning.read (state self.old) cell).0 }
        ensures leaves { state self.new ≡ (meaning.read (state self.old) cell).1 };

    fn write(&mut self, cell: u64, word: u64) -> Result<(), Fault>
        ensures answer { result ≡ (meaning.write (state self.old) cell word).0 }
        ensures leaves { state self.new ≡ (meaning.write (state self.old) cell word).1 };
}
