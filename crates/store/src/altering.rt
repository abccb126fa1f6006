// A store in the hands of somebody who alters its cells.
ghost use Rattle.std.specs.Prelude.{◌≡◌, ◌+◌, ◌-◌, ◌^◌, min};
ghost use Rattle.store_laws.specs.AlteringMachine.{altering, due};
ghost use Rattle.store_laws.proofs.AlteringKeeps.{altering_keeps};

use parts::fault::Fault;
use parts::store::Store;
use store_laws::Alteration;

#[derive(Drop)]
pub struct Altering<'a, S> {
    store: S,
    coming: &'a [Alteration],
    count: u64,
}

impl<'a, S: Store> Altering<'a, S> {
    // The store with alterations to come, by rising number of accesses.
    pub fn new(store: S, coming: &'a [Alteration]) -> Altering<'a, S>
        ensures { (result.store ≡ store) × ((result.coming.now ≡ coming.now) × (result.count ≡ 0)) }
    {
        Altering {
            store,
            coming,
            count: 0,
        }
    }

    // Makes the alterations that are due.
    #[tactic(auto, using(store_laws::proofs::AlteringKeeps::due_none, store_laws::proofs::AlteringKeeps::due_now, store_laws::proofs::AlteringKeeps::due_later))]
    fn alter(&mut self)
        ensures { record { store = S.Store.state self.new.store; coming = self.new.coming.now; count = self.new.count } ≡ due S.Store.meaning self.old.coming.now self.old.count (S.Store.state self.old.store) }
    {
        while let [first, rest @ ..] = self.coming {
            if first.after > self.count {
                return;
            }
            // whatever the store answers to it
            let _ = self.store.write(first.cell, first.word);
            self.coming = rest;
        }
    }

    // One access more, before which the alterations that are due are made.
    fn access(&mut self)
        ensures { let t = due S.Store.meaning self.old.coming.now self.old.count (S.Store.state self.old.store) in (S.Store.state self.new.store ≡ t.store) × ((self.new.coming.now ≡ t.coming) × (self.new.count ≡ min (2 ^ 64 - 1) (t.count + 1))) }
    {
        self.alter();
        self.count = self.count.saturating_add(1);
    }
}

impl<S: Store> Store for Altering<'_, S> {
    ghost meaning = { altering S.Store.meaning };

    ghost state = { λ s. record { store = S.Store.state s.store; coming = s.coming.now; count = s.count } };

    ghost keeps = { altering_keeps S.Store.meaning S.Store.keeps };

    fn size(&self) -> u64 {
        self.store.size()
    }

    fn width(&self) -> u32 {
        self.store.width()
    }

    fn height(&self) -> u8 {
        self.store.height()
    }

    fn read(&mut self, cell: u64) -> Result<u64, Fault> {
        self.access();
        self.store.read(cell)
    }

    fn write(&mut self, cell: u64, word: u64) -> Result<(), Fault> {
        self.access();
        self.store.write(cell, word)
    }
}
