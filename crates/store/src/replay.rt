// The replay: a bottom store that answers recorded words in order, and forgets what is written.
ghost use Rattle.std.specs.Prelude.{◌≡◌};
ghost use Rattle.store_laws.specs.ReplayMachine.{replay_meaning};
ghost use Rattle.store_laws.proofs.ReplayKeeps.{replay_keeps};

use super::{BOTTOM_HEIGHT, Shape, bottom_fault};
use parts::fault::{Cause, Fault};
use parts::store::Store;

#[derive(Drop)]
pub struct Replay<'a> {
    // the words that are left to be answered
    left: &'a [u64],
    shape: Shape,
}

impl<'a> Replay<'a> {
    // A replay of the words, which tells this size and this width. The words are only read.
    pub fn new(words: &'a [u64], cells: u64, width: u32) -> Replay<'a>
        ensures { (result.left.now ≡ words.now) × ((result.shape.cells ≡ cells) × (result.shape.width ≡ width)) }
    {
        Replay {
            left: words,
            shape: Shape { cells, width },
        }
    }
}

impl Store for Replay<'_> {
    ghost meaning = { replay_meaning };

    ghost state = { λ s. record { left = s.left.now; cells = s.shape.cells; wide = s.shape.width } };

    ghost keeps = { replay_keeps };

    fn size(&self) -> u64 {
        self.shape.size()
    }

    fn width(&self) -> u32 {
        self.shape.width()
    }

    fn height(&self) -> u8 {
        BOTTOM_HEIGHT
    }

    fn read(&mut self, cell: u64) -> Result<u64, Fault> {
        if !self.shape.is_fit() {
            return Err(bottom_fault(Cause::NoSuchCell, cell));
        }
        let [word, rest @ ..] = self.left else {
            return Err(bottom_fault(Cause::ReplayEnded, cell));
        };
        self.left = rest;
        Ok(*word)
    }

    fn write(&mut self, cell: u64, _word: u64) -> Result<(), Fault> {
        if !self.shape.is_fit() {
            return Err(bottom_fault(Cause::NoSuchCell, cell));
        }
        Ok(())
    }
}
