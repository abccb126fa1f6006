// The rows of a table.
ghost use Rattle.std.specs.Prelude.{◌≡◌, ◌<◌, ◌≤◌, min, cond, Some, None, nat_lt};
ghost use Rattle.parts.specs.Queues.{most_tickets};
ghost use Rattle.queue_laws.specs.Tables.{empty_table, with_row, fresh_row, waiting, first_waiting, raised_row, raised, offends, first_offender};
ghost use Rattle.table.specs.Rows.{rows};

use super::table::Table;
use parts::order::Order;
use parts::queue::MOST_TICKETS;

impl Table {
    // A table of so many tickets, at most 1,024, in which nothing waits.
    pub fn new(tickets: u64) -> Table
        ensures tickets { result.tickets ≡ min tickets most_tickets }
        ensures rows { rows result ≡ empty_table }
    {
        Table {
            tickets: tickets.min(MOST_TICKETS as u64),
            waits: [false; MOST_TICKETS],
            keys: [0; MOST_TICKETS],
            bounded: [false; MOST_TICKETS],
            bounds: [0; MOST_TICKETS],
        }
    }

    // Nothing waits any more. That the tickets stay is a clause of each call that changes rows: it is of two states, and no invariant of one.
    pub fn clear(&mut self)
        ensures tickets { self.new.tickets ≡ self.old.tickets }
        ensures rows { rows self.new ≡ empty_table }
    {
        self.waits = [false; MOST_TICKETS];
    }

    // How many tickets there are.
    pub fn tickets(&self) -> u64
        ensures { result ≡ self.now.tickets }
    {
        self.tickets
    }

    // The index of the ticket's row, if there is such a ticket.
    fn row(&self, ticket: u64) -> Option<usize>
        ensures { result ≡ cond (nat_lt ticket self.now.tickets) (Some ticket) None }
    {
        (ticket < self.tickets).then_some(ticket as usize)
    }

    // The key of a waiting ticket.
    pub fn key(&self, ticket: u64) -> Option<u64>
        ensures { result ≡ waiting (rows self.now) ticket }
    {
        let t = self.row(ticket)?;
        self.waits[t].then_some(self.keys[t])
    }

    // The ticket waits with the key, without a bound. Where there is no such ticket, nothing happens.
    pub fn enter(&mut self, ticket: u64, key: u64)
        ensures tickets { self.new.tickets ≡ self.old.tickets }
        ensures enters { ticket < self.old.tickets → rows self.new ≡ with_row (rows self.old) ticket (Some (fresh_row key)) }
        ensures past { self.old.tickets ≤ ticket → rows self.new ≡ rows self.old }
    {
        if let Some(t) = self.row(ticket) {
            self.waits[t] = true;
            self.keys[t] = key;
            self.bounded[t] = false;
        }
    }

    // The ticket waits no more.
    pub fn take(&mut self, ticket: u64)
        ensures tickets { self.new.tickets ≡ self.old.tickets }
        ensures rows { rows self.new ≡ with_row (rows self.old) ticket None }
    {
        if let Some(t) = self.row(ticket) {
            self.waits[t] = false;
        }
    }

    // The first waiting ticket.
    pub fn first_waiting(&self) -> Option<u64>
        ensures { result ≡ first_waiting (rows self.now) self.now.tickets }
    {
        (0..self.tickets).find(|&t| self.waits[t as usize])
    }

    // Whether the ticket waits with a key before its bound.
    pub fn is_before_bound<O: Order>(&self, order: &O, ticket: u64) -> bool
        ensures { result ≡ offends O.Order.before (rows self.now ticket) }
    {
        let Some(t) = self.row(ticket) else {
            return false;
        };
        self.waits[t] && self.bounded[t] && order.is_before(self.keys[t], self.bounds[t])
    }

    // The first waiting ticket whose key is before its bound.
    pub fn first_offender<O: Order>(&self, order: &O) -> Option<u64>
        ensures { result ≡ first_offender O.Order.before (rows self.now) self.now.tickets }
    {
        (0..self.tickets).find(|&t| self.is_before_bound(order, t))
    }

    // Raises the bound of the ticket, if it waits, to the key, where the bound is none or before it.
    fn raise_one<O: Order>(&mut self, order: &O, ticket: u64, key: u64)
        requires { ticket < self.old.tickets }
        ensures tickets { self.new.tickets ≡ self.old.tickets }
        ensures rows { rows self.new ≡ with_row (rows self.old) ticket (raised_row O.Order.before key (rows self.old ticket)) }
    {
        let t = ticket as usize;
        if !self.bounded[t] || order.is_before(self.bounds[t], key) {
            self.bounded[t] = true;
            self.bounds[t] = key;
        }
    }

    // Raises the bound of every waiting ticket to the key, where it is none or before it.
    pub fn raise<O: Order>(&mut self, order: &O, key: u64)
        ensures tickets { self.new.tickets ≡ self.old.tickets }
        ensures rows { rows self.new ≡ raised O.Order.before (rows self.old) key }
    {
        // over tickets, since a ticket has an item in each of the arrays
        for t in 0..self.tickets {
            self.raise_one(order, t, key);
        }
    }
}
