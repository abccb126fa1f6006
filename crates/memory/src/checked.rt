// The checked memory: a layer over any store, which finds out whether the store answered what was last written.
ghost use Rattle.std.specs.Prelude.{◌≡◌, ◌^◌, ◌<◌, ◌≤◌, cond, nat_lt, IfSome, IfOk, Ok, Err};
ghost use Rattle.parts.specs.Meaning.{fault};
ghost use Rattle.parts.specs.declared.fault.Cause.TheVariants.{NoSuchCell};
ghost use Rattle.memory_laws.specs.Checked.{plain, blank, checkable, height, fetch, put, renewed, cleared, sweep_all, ready, turn, visit, replaced, sweeps, checked, StartsLoyal};
ghost use Rattle.memory_laws.specs.Checked.{made as made_over};
ghost use Rattle.memory_laws.proofs.CheckedKeeps.{checked_keeps};
ghost use Rattle.memory.specs.View.{view, Does};

use super::cell::Cell;
use super::clock::{Clock, power};
use parts::fault::{Cause, Fault};
use parts::latch::Latch;
use parts::store::{MOST_BITS, MOST_CELLS, Store};
use parts::tally::Tally;

const STAMP_BITS: u32 = 20;

const CLOCK_END: u64 = 1_048_575;

#[derive(Drop)]
pub struct CheckedMemory<S, T: Tally> {
    store: S,
    tally: T,
    clock: Clock,
    read: T::Value,
    written: T::Value,
    latch: Latch<Fault>,
}

// Whether a store of this size and width can be checked: two ranges, which a function for all parts would not shorten.
fn is_checkable(size: u64, width: u32) -> bool
    ensures { result ≡ checkable size width }
{
    (1..=MOST_CELLS).contains(&size) && (STAMP_BITS + 1..=MOST_BITS).contains(&width)
}

impl<S: Store, T: Tally> CheckedMemory<S, T> {
    // A fault that the memory itself finds. Each part makes its own, since each knows its height in its own way.
    fn own(&self, cause: Cause, place: u64) -> Fault
        ensures { result ≡ fault cause (height (plain S.Store.meaning) T.Tally.tallying (view S.Store.state self.now)) place }
    {
        Fault {
            cause,
            height: self.height(),
            place,
        }
    }

    // The cell of that number, if there is one.
    fn cell_at(&self, number: u64) -> Result<Cell, Fault>
        ensures { let s = view S.Store.state self.now in result ≡ cond (nat_lt number s.size) (Ok number) (Err (fault NoSuchCell (height (plain S.Store.meaning) T.Tally.tallying s) number)) }
    {
        self.clock
            .cell(number)
            .ok_or_else(|| self.own(Cause::NoSuchCell, number))
    }

    // Reads a cell below, tests its word and adds its record to those read; answers the value.
    fn fetch(&mut self, cell: Cell) -> Result<u64, Fault>
        ensures does { Does S.Store.state self.old self.new result (fetch (plain S.Store.meaning) T.Tally.tallying cell) }
        ensures clock { self.new.clock ≡ self.old.clock }
        ensures small { IfOk result (λ v. v < 2 ^ self.old.clock.width) }
    {
        let word = self.store.read(cell.number())?;
        if word >= power(self.clock.width + STAMP_BITS) {
            return Err(self.own(Cause::WiderThanStore, cell.number()));
        }
        let base = power(self.clock.width);
        if word / base > self.clock.time {
            return Err(self.own(Cause::StampAhead, cell.number()));
        }
        self.read = self.tally.add(self.read, cell.record_of(word));
        Ok(word % base)
    }

    // Writes a word below and adds its record to those written.
    fn put(&mut self, cell: Cell, word: u64) -> Result<(), Fault>
        requires { word < 2 ^ 48 }
        ensures { Does S.Store.state self.old self.new result (put (plain S.Store.meaning) T.Tally.tallying cell word) }
    {
        self.store.write(cell.number(), word)?;
        self.written = self.tally.add(self.written, cell.record_of(word));
        Ok(())
    }

    // Writes value 0 with stamp 0 to every cell.
    fn clear(&mut self) -> Result<(), Fault>
        ensures { Does S.Store.state self.old self.new result (cleared (plain S.Store.meaning) T.Tally.tallying self.old.clock.size) }
    {
        for number in 0..self.clock.cells() {
            self.put(Cell::new(number), 0)?;
        }
        Ok(())
    }

    // A memory of that size and width of the values, with the clock at 0, nothing read and nothing written.
    fn blank(store: S, tally: T, size: u64, width: u32) -> Self
        requires { (size ≤ 4096) × (width ≤ 28) }
        ensures { view S.Store.state result ≡ blank (plain S.Store.meaning) T.Tally.tallying tally size width (S.Store.state store) }
    {
        let start = tally.start();
        CheckedMemory {
            store,
            tally,
            clock: Clock {
                size,
                width,
                time: 0,
            },
            read: start,
            written: start,
            latch: Latch::new(),
        }
    }

    // A checked memory over the store, which it clears.
    pub fn new(store: S, tally: T) -> Self
        ensures outcome { view S.Store.state result ≡ made_over S.Store.meaning T.Tally.tallying (S.Store.state store) tally }
        ensures loyal { StartsLoyal S.Store.meaning T.Tally.tallying (S.Store.state store) (view S.Store.state result) }
    {
        let size = store.size();
        let width = store.width();
        // an unfit memory has no cells, and tells 0 as its size and width
        if !is_checkable(size, width) {
            return CheckedMemory::blank(store, tally, 0, 0);
        }
        let mut memory = CheckedMemory::blank(store, tally, size, width - STAMP_BITS);
        let result = memory.clear();
        let _ = memory.latch.settle(result);
        memory
    }

    // The sweep's step at one cell; answers the new tally.
    fn renew(&mut self, cell: Cell, fresh: T::Value) -> Result<T::Value, Fault>
        ensures does { Does S.Store.state self.old self.new result (renewed (plain S.Store.meaning) T.Tally.tallying cell fresh) }
        ensures clock { self.new.clock ≡ self.old.clock }
    {
        let value = self.fetch(cell)?;
        self.store.write(cell.number(), value)?;
        Ok(self.tally.add(fresh, cell.record_of(value)))
    }

    fn sweep_all(&mut self) -> Result<(), Fault>
        ensures does { Does S.Store.state self.old self.new result (sweep_all (plain S.Store.meaning) T.Tally.tallying) }
        ensures width { self.new.clock.width ≡ self.old.clock.width }
        ensures zero { result ≡ Ok tt → self.new.clock.time ≡ 0 }
    {
        let mut fresh = self.tally.start();
        for number in 0..self.clock.cells() {
            fresh = self.renew(Cell::new(number), fresh)?;
        }
        if !self.tally.same(self.read, self.written) {
            return Err(self.own(Cause::TalliesDiffer, 0));
        }
        self.read = self.tally.start();
        self.written = fresh;
        self.clock.time = 0;
        Ok(())
    }

    // A sweep first, if the clock is at its end.
    fn ready(&mut self) -> Result<(), Fault>
        ensures does { Does S.Store.state self.old self.new result (ready (plain S.Store.meaning) T.Tally.tallying) }
        ensures width { self.new.clock.width ≡ self.old.clock.width }
        ensures early { result ≡ Ok tt → self.new.clock.time < 1048575 }
    {
        if self.clock.time == CLOCK_END {
            self.sweep_all()?;
        }
        Ok(())
    }

    // Reads the cell, raises the clock, and writes the new value, or else the one read, with that stamp. That a value is below the
    // limit is asked of these three and is in no type: the limit is the width of this memory, and a value does not know its memory.
    #[tactic(auto, using(crate::proofs::Values::chosen_below))]
    fn turn(&mut self, cell: Cell, new: Option<u64>) -> Result<u64, Fault>
        requires time_bound { self.old.clock.time < 1048575 }
        requires some { IfSome new (λ v. v < 2 ^ self.old.clock.width) }
        ensures { Does S.Store.state self.old self.new result (turn (plain S.Store.meaning) T.Tally.tallying cell new) }
    {
        let old = self.fetch(cell)?;
        let value = new.unwrap_or(old);
        let word = self.clock.stamped(value);
        self.put(cell, word)?;
        Ok(value)
    }

    fn visit(&mut self, cell: Cell, new: Option<u64>) -> Result<u64, Fault>
        requires { IfSome new (λ v. v < 2 ^ self.old.clock.width) }
        ensures { Does S.Store.state self.old self.new result (visit (plain S.Store.meaning) T.Tally.tallying cell new) }
    {
        self.ready()?;
        self.turn(cell, new)
    }

    fn replace(&mut self, cell: Cell, value: u64) -> Result<(), Fault>
        requires { value < 2 ^ self.old.clock.width }
        ensures { Does S.Store.state self.old self.new result (replaced (plain S.Store.meaning) T.Tally.tallying cell value) }
    {
        self.visit(cell, Some(value))?;
        Ok(())
    }

    // Tallies every cell anew, and tells whether what was read is what was written.
    pub fn sweep(&mut self) -> Result<(), Fault>
        ensures { Does S.Store.state self.old self.new result (sweeps (plain S.Store.meaning) T.Tally.tallying) }
    {
        self.latch.unbroken()?;
        let result = self.sweep_all();
        self.latch.settle(result)
    }

    // Takes the memory apart, and gives the store back. Each part takes its own fields apart; a trait would do so again for each.
    pub fn into_store(self) -> S
    where
        T: Drop,
        ensures { S.Store.state result ≡ (view S.Store.state self).store }
    {
        let CheckedMemory {
            store,
            tally: _,
            clock: _,
            read: _,
            written: _,
            latch: _,
        } = self;
        store
    }

    // The first fault of a broken memory.
    pub fn fault(&self) -> Option<Fault>
        ensures { result ≡ (view S.Store.state self.now).broken }
    {
        self.latch.fault()
    }
}

impl<S: Store, T: Tally> Store for CheckedMemory<S, T> {
    ghost meaning = { checked S.Store.meaning T.Tally.tallying };

    ghost state = { view S.Store.state };

    ghost keeps = { checked_keeps S.Store.meaning S.Store.keeps T.Tally.tallying T.Tally.laws };

    fn size(&self) -> u64 {
        self.clock.size
    }

    fn width(&self) -> u32 {
        self.clock.width
    }

    fn height(&self) -> u8 {
        self.store.height().saturating_add(1)
    }

    fn read(&mut self, cell: u64) -> Result<u64, Fault> {
        self.latch.unbroken()?;
        let cell = self.cell_at(cell)?;
        let result = self.visit(cell, None);
        self.latch.settle(result)
    }

    fn write(&mut self, cell: u64, word: u64) -> Result<(), Fault> {
        self.latch.unbroken()?;
        let cell = self.cell_at(cell)?;
        if word >= power(self.clock.width) {
            return Err(self.own(Cause::WordTooWide, cell.number()));
        }
        let result = self.replace(cell, word);
        self.latch.settle(result)
    }
}
