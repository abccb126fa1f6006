// The binary heap: a queue over any store.
ghost use Rattle.std.specs.Prelude.{◌≡◌, ◌≤◌};
ghost use Rattle.parts.specs.Queues.{most_tickets};
ghost use Rattle.heap_laws.specs.HeapMachine.{heap, heap_least, capacity as capacity_of, made as made_over, StartsLoyal};
ghost use Rattle.heap.specs.View.{view};
ghost use Rattle.heap_laws.proofs.HeapKeeps.{heap_keeps};

use super::cells::{PLACE, cell, height_over, own, room, senseless, ticket_at};
use super::walk::{Entry, Walk};
use parts::fault::{Cause, QueueFault};
use parts::order::Order;
use parts::queue::{KEY_LIMIT, Queue};
use parts::store::Store;

// The entries stand in the store; the heap itself holds only how many there are.
#[derive(Drop)]
pub struct Heap<S, O> {
    store: S,
    order: O,
    count: u64,
}

impl<S: Store, O: Order> Heap<S, O> {
    // A heap over the store, which it clears.
    pub fn new(store: S, order: O) -> Self
        ensures outcome { view S.Store.state result ≡ made_over S.Store.meaning O.Order.before (S.Store.state store) }
        ensures loyal { StartsLoyal S.Store.meaning O.Order.before (S.Store.state store) (view S.Store.state result) }
    {
        let mut heap = Heap {
            store,
            order,
            count: 0,
        };
        let _ = heap.clear();
        heap
    }

    // Takes the heap apart, and gives the store back. Each part takes its own fields apart; a trait would do so again for each.
    pub fn into_store(self) -> S
    where
        O: Drop,
        ensures { S.Store.state result ≡ (view S.Store.state self).store }
    {
        let Heap {
            store,
            order: _,
            count: _,
        } = self;
        store
    }
}

impl<S: Store, O: Order> Queue for Heap<S, O> {
    type Order = O;

    ghost meaning = { heap S.Store.meaning O.Order.before };

    ghost state = { view S.Store.state };

    ghost keeps = { heap_keeps S.Store.meaning S.Store.keeps O.Order.before O.Order.laws };

    fn order(&self) -> &O {
        &self.order
    }

    // The store's size and width give it.
    fn capacity(&self) -> u64
        ensures value { result ≡ capacity_of S.Store.meaning O.Order.before (view S.Store.state self.now) }
        ensures few { result ≤ most_tickets }
    {
        room(self.store.size(), self.store.width())
    }

    fn height(&self) -> u8 {
        height_over(&self.store)
    }

    fn clear(&mut self) -> Result<(), QueueFault> {
        self.count = 0;
        for ticket in 0..self.capacity() {
            self.store.write(cell::<PLACE>(ticket), 0)?;
        }
        Ok(())
    }

    fn put(&mut self, ticket: u64, key: u64) -> Result<(), QueueFault> {
        let capacity = self.capacity();
        if ticket >= capacity {
            return Err(own(&self.store, Cause::NoSuchTicket, ticket));
        }
        if key >= KEY_LIMIT {
            return Err(own(&self.store, Cause::KeyTooLarge, ticket));
        }
        let told = self.store.read(cell::<PLACE>(ticket))?;
        if told > self.count {
            return Err(senseless(&self.store));
        }
        if told > 0 {
            return Err(own(&self.store, Cause::TicketInUse, ticket));
        }
        if self.count >= capacity {
            return Err(senseless(&self.store));
        }
        let mut walk = Walk {
            store: &mut self.store,
            order: &self.order,
            capacity,
            count: self.count + 1,
            hole: self.count,
        };
        walk.seat(Entry { ticket, key })?;
        self.count += 1;
        Ok(())
    }

    fn remove(&mut self, ticket: u64) -> Result<(), QueueFault> {
        let capacity = self.capacity();
        if ticket >= capacity {
            return Err(own(&self.store, Cause::NoSuchTicket, ticket));
        }
        let told = self.store.read(cell::<PLACE>(ticket))?;
        if told == 0 {
            return Err(own(&self.store, Cause::NotWaiting, ticket));
        }
        if told > self.count || self.count > capacity {
            return Err(senseless(&self.store));
        }
        if ticket_at(&mut self.store, capacity, told - 1)? != ticket {
            return Err(senseless(&self.store));
        }
        self.store.write(cell::<PLACE>(ticket), 0)?;
        if told < self.count {
            let mut walk = Walk {
                store: &mut self.store,
                order: &self.order,
                capacity,
                count: self.count - 1,
                hole: told - 1,
            };
            walk.fill()?;
        }
        self.count -= 1;
        Ok(())
    }

    fn least(&mut self) -> Result<Option<u64>, QueueFault> {
        let capacity = self.capacity();
        if capacity == 0 || self.count == 0 {
            return Ok(None);
        }
        ticket_at(&mut self.store, capacity, 0).map(Some)
    }
}
