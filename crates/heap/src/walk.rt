// The ways up and down a heap, by which an entry gets to where it belongs.
ghost use Rattle.std.specs.Prelude.{◌≡◌, ◌+◌, ◌-◌, ◌*◌, ◌<◌, ◌≤◌, OnOk, IfOk};
ghost use Rattle.parts.specs.Queues.{most_tickets};
ghost use Rattle.heap_laws.specs.Cells.{parent, left_child};

use super::cells::{KEY, PLACE, TICKET, cell, key_at, ticket_at};
use parts::fault::QueueFault;
use parts::order::Order;
use parts::store::Store;

// A ticket that waits, and its key.
#[derive(Clone, Copy)]
pub(crate) struct Entry {
    pub(crate) ticket: u64,
    pub(crate) key: u64,
    ghost below: { ticket < most_tickets },
}

// The way of a free place through so many entries, over a store that is lent for one call of the heap.
#[derive(Drop)]
pub(crate) struct Walk<'s, 'o, S, O> {
    pub(crate) store: &'s mut S,
    pub(crate) order: &'o O,
    pub(crate) capacity: u64,
    pub(crate) count: u64,
    pub(crate) hole: u64,
    ghost few: { capacity ≤ most_tickets },
    ghost within: { count ≤ capacity },
    ghost free: { hole < count },
}

impl<S: Store, O: Order> Walk<'_, '_, S, O> {
    ghost use Rattle.heap_laws.specs.HeapMachine.{placing, moving, rising, first_child, sinking, way as way_of, seating, filling};
    ghost use Rattle.heap.specs.Walks.{Leaves, Walks};

    fn parent(&self) -> u64
        requires { 0 < self.now.hole }
        ensures { result ≡ parent self.now.hole }
    {
        (self.hole - 1) / 2
    }

    fn left_child(&self) -> u64
        ensures { result ≡ left_child self.now.hole }
    {
        2 * self.hole + 1
    }

    // Writes an entry at the free place: its ticket, its key, and where the ticket is. (This and the next are in each step of a way:
    // called and not put in place there, puts and removes over an array took a quarter longer.)
    #[inline]
    fn place(&mut self, entry: Entry) -> Result<(), QueueFault>
        ensures does { Leaves S.Store.state self.old self.new result (placing S.Store.meaning self.old.hole entry.ticket entry.key) }
    {
        self.store.write(cell::<TICKET>(self.hole), entry.ticket)?;
        self.store.write(cell::<KEY>(self.hole), entry.key)?;
        self.store
            .write(cell::<PLACE>(entry.ticket), self.hole + 1)?;
        Ok(())
    }

    // Moves an entry, whose key is known, to the free place; its own is free then.
    #[inline]
    fn move_entry(&mut self, from: u64, key: u64) -> Result<(), QueueFault>
        requires { from < self.old.count }
        ensures does { Leaves S.Store.state self.old self.new result (moving S.Store.meaning self.old.capacity from self.old.hole key) }
        ensures free { OnOk result (self.new.hole ≡ from) }
    {
        let ticket = ticket_at(self.store, self.capacity, from)?;
        self.place(Entry { ticket, key })?;
        self.hole = from;
        Ok(())
    }

    // While a key is before the one above the free place, that entry moves down. (No `for` fits: each turn goes to the parent.)
    fn rise(&mut self, key: u64) -> Result<(), QueueFault>
        ensures { Walks S.Store.state self.old self.new result (rising S.Store.meaning O.Order.before self.old.hole self.old.capacity key self.old.hole) }
    {
        while self.hole > 0 {
            let above = self.parent();
            let upper = key_at(self.store, above)?;
            if !self.order.is_before(key, upper) {
                return Ok(());
            }
            self.move_entry(above, upper)?;
        }
        Ok(())
    }

    // A child of the free place that its sibling is not before, and its key.
    fn first_child(&mut self) -> Result<(u64, u64), QueueFault>
        requires { 2 * self.old.hole + 1 < self.old.count }
        ensures does { Leaves S.Store.state self.old self.new result (first_child S.Store.meaning O.Order.before self.old.count self.old.hole) }
        ensures free { self.new.hole ≡ self.old.hole }
        ensures within { IfOk result (λ c. (self.old.hole < c.0) × (c.0 < self.old.count)) }
    {
        let left = self.left_child();
        let left_key = key_at(self.store, left)?;
        let right = left + 1;
        if right < self.count {
            let right_key = key_at(self.store, right)?;
            if self.order.is_before(right_key, left_key) {
                return Ok((right, right_key));
            }
        }
        Ok((left, left_key))
    }

    // While a child of the free place is before the key, it moves up. (No `for` fits: each turn goes to a child, and to which
    // shows once both are read.)
    fn sink(&mut self, key: u64) -> Result<(), QueueFault>
        ensures { Walks S.Store.state self.old self.new result (sinking S.Store.meaning O.Order.before (self.old.count - self.old.hole) self.old.capacity self.old.count key self.old.hole) }
    {
        while self.left_child() < self.count {
            let (child, lower) = self.first_child()?;
            if !self.order.is_before(lower, key) {
                return Ok(());
            }
            self.move_entry(child, lower)?;
        }
        Ok(())
    }

    // The free place gets to where a key belongs: up, or else down.
    fn way(&mut self, key: u64) -> Result<(), QueueFault>
        ensures { Walks S.Store.state self.old self.new result (way_of S.Store.meaning O.Order.before self.old.capacity self.old.count key self.old.hole) }
    {
        let from = self.hole;
        self.rise(key)?;
        if self.hole == from {
            return self.sink(key);
        }
        Ok(())
    }

    // Seats an entry, after the others have made way.
    pub(crate) fn seat(&mut self, entry: Entry) -> Result<(), QueueFault>
        ensures { Leaves S.Store.state self.old self.new result (seating S.Store.meaning O.Order.before self.old.capacity self.old.count entry.ticket entry.key self.old.hole) }
    {
        self.way(entry.key)?;
        self.place(entry)
    }

    // Seats the last entry, which is no longer counted.
    pub(crate) fn fill(&mut self) -> Result<(), QueueFault>
        requires { self.old.count < self.old.capacity }
        ensures { Leaves S.Store.state self.old self.new result (filling S.Store.meaning O.Order.before self.old.capacity self.old.count self.old.hole) }
    {
        let ticket = ticket_at(self.store, self.capacity, self.count)?;
        let key = key_at(self.store, self.count)?;
        self.seat(Entry { ticket, key })
    }
}
