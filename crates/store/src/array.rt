// The array: a bottom store over handed words.
ghost use Rattle.std.specs.Prelude.{◌≡◌, ◌<◌, true, cond, length, replicate, nat_lt, Ok, Err};
ghost use Rattle.parts.specs.Meaning.{fit, fault};
ghost use Rattle.parts.specs.declared.fault.Cause.TheVariants.{NoSuchCell};
ghost use Rattle.store_laws.specs.ArrayMachine.{array_meaning, array_size};
ghost use Rattle.store_laws.proofs.ArrayKeeps.{array_keeps};

use super::{BOTTOM_HEIGHT, Shape, bottom_fault};
use parts::fault::{Cause, Fault};
use parts::store::Store;

#[derive(Drop)]
pub struct Array<'a> {
    words: &'a mut [u64],
    width: u32,
}

impl<'a> Array<'a> {
    // An array over the words, all of which become 0. One that is unfit writes nothing.
    pub fn new(words: &'a mut [u64], width: u32) -> Array<'a>
        ensures wide { result.width ≡ width }
        ensures holds { result.words.now ≡ cond (fit (length words.old) width) (replicate (length words.old) 0) words.old }
        ensures loyal { fit (length words.old) width ≡ true → array_meaning.loyal (record { words = result.words.now; wide = result.width }) }
    {
        let mut array = Array { words, width };
        if array.shape().is_fit() {
            array.words.fill(0);
        }
        array
    }

    fn shape(&self) -> Shape
        ensures { (result.cells ≡ length self.now.words.now) × (result.width ≡ self.now.width) }
    {
        Shape {
            cells: self.words.len() as u64,
            width: self.width,
        }
    }

    // Where the word of a cell stands, if there is such a cell.
    fn place(&self, cell: u64) -> Result<usize, Fault>
        ensures { result ≡ cond (nat_lt cell (array_size (record { words = self.now.words.now; wide = self.now.width }))) (Ok cell) (Err (fault NoSuchCell 0 cell)) }
    {
        if cell < self.size() {
            Ok(cell as usize)
        } else {
            Err(bottom_fault(Cause::NoSuchCell, cell))
        }
    }
}

impl Store for Array<'_> {
    ghost meaning = { array_meaning };

    ghost state = { λ s. record { words = s.words.now; wide = s.width } };

    ghost keeps = { array_keeps };

    fn size(&self) -> u64 {
        self.shape().size()
    }

    fn width(&self) -> u32 {
        self.shape().width()
    }

    fn height(&self) -> u8 {
        BOTTOM_HEIGHT
    }

    fn read(&mut self, cell: u64) -> Result<u64, Fault> {
        let place = self.place(cell)?;
        Ok(self.words[place])
    }

    fn write(&mut self, cell: u64, word: u64) -> Result<(), Fault> {
        let place = self.place(cell)?;
        if word >= 1 << self.width {
            return Err(bottom_fault(Cause::WordTooWide, cell));
        }
        self.words[place] = word;
        Ok(())
    }
}
