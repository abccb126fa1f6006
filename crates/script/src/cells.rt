// The cells of a store.
ghost use Rattle.std.specs.Prelude.{◌≡◌};
ghost use Rattle.words.specs.Taken.{left};
ghost use Rattle.script.specs.Stores.{cells_said};

use words::reason::Reason;
use words::words::Words;

// How many cells, and how many bits each has.
#[derive(Clone, Copy, Debug, PartialEq, Eq)]
pub struct Cells {
    pub size: u64,
    pub width: u64,
}

impl Cells {
    // The words of the line, to its end.
    pub fn of(words: &mut Words<'_>) -> Result<Cells, Reason>
        ensures { result ≡ cells_said (left words.old) }
    {
        let size = words.number()?;
        let width = words.number()?;
        words.end()?;
        Ok(Cells { size, width })
    }
}
