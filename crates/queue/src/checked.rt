// The checked queue: a layer over any queue, which finds out whether the queue named a ticket that none was before.
ghost use Rattle.std.specs.Prelude.{◌≡◌, ◌≤◌, None, Ok};
ghost use Rattle.parts.specs.Outcomes.{unless_any};
ghost use Rattle.parts.specs.Queues.{most_tickets, found, put_declined, remove_declined};
ghost use Rattle.queue_laws.specs.CheckedQueue.{fitting, height, entering, taking, naming, auditing, audits, clearing, made, Loyal, checked, StartsLoyal};
ghost use Rattle.table.specs.Rows.{rows};
ghost use Rattle.queue.specs.View.{view, Does};
ghost use Rattle.queue_laws.specs.Tables.{waiting, first_offender};
ghost use Rattle.queue_laws.proofs.QueueKeeps.{checked_keeps};

use parts::fault::{Cause, Fault, QueueFault};
use parts::latch::Latch;
use parts::queue::{KEY_LIMIT, MOST_TICKETS, Queue};
use table::table::Table;

#[derive(Drop)]
pub struct CheckedQueue<Q> {
    below: Q,
    table: Table,
    latch: Latch<QueueFault>,
}

// The capacity of a check over a queue of this capacity, or 0, which it tells as such, where it is unfit.
fn fit_capacity(capacity: u64, below: u64) -> u64
    ensures value { result ≡ fitting capacity below }
    ensures few { result ≤ most_tickets }
{
    if (1..=MOST_TICKETS as u64).contains(&capacity) && capacity <= below {
        capacity
    } else {
        0
    }
}

impl<Q: Queue> CheckedQueue<Q> {
    // A check of so many tickets over the queue, which it leaves as it is.
    pub fn new(below: Q, capacity: u64) -> Self
        ensures outcome { view Q.Queue.state result ≡ made Q.Queue.meaning Q.Order.before capacity (Q.Queue.state below) }
        ensures loyal { StartsLoyal Q.Queue.meaning Q.Order.before capacity (Q.Queue.state below) (view Q.Queue.state result) }
    {
        let tickets = fit_capacity(capacity, below.capacity());
        CheckedQueue {
            below,
            table: Table::new(tickets),
            latch: Latch::new(),
        }
    }

    // A fault that the check itself finds. Each part makes its own, since each knows its height in its own way.
    fn own(&self, cause: Cause, ticket: u64) -> QueueFault
        ensures { result ≡ found cause (height Q.Queue.meaning Q.Order.before (view Q.Queue.state self.now)) ticket }
    {
        QueueFault::Found(Fault {
            cause,
            height: self.height(),
            place: ticket,
        })
    }

    // Why a put is declined, or that it is not.
    fn may_put(&self, ticket: u64, key: u64) -> Result<(), Cause>
        ensures { result ≡ unless_any (put_declined self.now.table.tickets (waiting (rows self.now.table)) ticket key) }
    {
        if ticket >= self.table.tickets() {
            Err(Cause::NoSuchTicket)
        } else if key >= KEY_LIMIT {
            Err(Cause::KeyTooLarge)
        } else if self.table.key(ticket).is_some() {
            Err(Cause::TicketInUse)
        } else {
            Ok(())
        }
    }

    // Why a remove is declined, or that it is not.
    fn may_remove(&self, ticket: u64) -> Result<(), Cause>
        ensures { result ≡ unless_any (remove_declined self.now.table.tickets (waiting (rows self.now.table)) ticket) }
    {
        if ticket >= self.table.tickets() {
            Err(Cause::NoSuchTicket)
        } else if self.table.key(ticket).is_none() {
            Err(Cause::NotWaiting)
        } else {
            Ok(())
        }
    }

    // Puts below; the entry then waits without a bound.
    fn enter(&mut self, ticket: u64, key: u64) -> Result<(), QueueFault>
        requires { put_declined self.old.table.tickets (waiting (rows self.old.table)) ticket key ≡ None }
        ensures { Does Q.Queue.state self.old self.new result (entering Q.Queue.meaning Q.Order.before ticket key) }
    {
        self.below.put(ticket, key)?;
        self.table.enter(ticket, key);
        Ok(())
    }

    // Removes below, unless the key is before its bound.
    fn take(&mut self, ticket: u64) -> Result<(), QueueFault>
        requires { remove_declined self.old.table.tickets (waiting (rows self.old.table)) ticket ≡ None }
        ensures { Does Q.Queue.state self.old self.new result (taking Q.Queue.meaning Q.Order.before ticket) }
    {
        if self.table.is_before_bound(self.below.order(), ticket) {
            return Err(self.own(Cause::KeyBeforeBound, ticket));
        }
        self.below.remove(ticket)?;
        self.table.take(ticket);
        Ok(())
    }

    // Asks below for a ticket, and raises the bounds of those that wait to its key.
    fn name(&mut self) -> Result<Option<u64>, QueueFault>
        ensures { Does Q.Queue.state self.old self.new result (naming Q.Queue.meaning Q.Order.before) }
    {
        let named = self.below.least()?;
        let ticket = named.ok_or_else(|| self.own(Cause::NothingNamed, 0))?;
        let key = self
            .table
            .key(ticket)
            .ok_or_else(|| self.own(Cause::NamedNotWaiting, ticket))?;
        self.table.raise(self.below.order(), key);
        Ok(Some(ticket))
    }

    // Clears below and empties the table.
    fn empty(&mut self) -> Result<(), QueueFault>
        ensures { Does Q.Queue.state self.old self.new result (clearing Q.Queue.meaning Q.Order.before) }
    {
        self.below.clear()?;
        self.table.clear();
        Ok(())
    }

    // A waiting key before its bound is a fault: the queue named a later one while it waited.
    fn no_offender(&self) -> Result<(), QueueFault>
        ensures { result ≡ (auditing Q.Queue.meaning Q.Order.before (first_offender Q.Order.before (rows self.now.table) self.now.table.tickets) (view Q.Queue.state self.now)).0 }
    {
        // a match, since `map_or(Ok(()), ..)` would say first what is answered last, and be no shorter
        match self.table.first_offender(self.below.order()) {
            Some(ticket) => Err(self.own(Cause::KeyBeforeBound, ticket)),
            None => Ok(()),
        }
    }

    // Tells whether every naming since the last clear was right, as far as the entries that wait show it.
    pub fn audit(&mut self) -> Result<(), QueueFault>
        ensures does { Does Q.Queue.state self.old self.new result (audits Q.Queue.meaning Q.Order.before) }
        ensures passes { Loyal Q.Queue.meaning Q.Order.before (view Q.Queue.state self.old) → result ≡ Ok tt }
    {
        self.latch.unbroken()?;
        let audited = self.no_offender();
        self.latch.settle(audited)
    }

    // Takes the check apart, and gives the queue back. Each part takes its own fields apart; a trait would do so again for each.
    pub fn into_queue(self) -> Q
        ensures { Q.Queue.state result ≡ (view Q.Queue.state self).below }
    {
        let CheckedQueue { below, .. } = self;
        below
    }

    // The key of a waiting ticket.
    pub fn key(&self, ticket: u64) -> Option<u64>
        ensures { result ≡ waiting (view Q.Queue.state self.now).table ticket }
    {
        self.table.key(ticket)
    }

    // The first fault of a broken check.
    pub fn fault(&self) -> Option<QueueFault>
        ensures { result ≡ (view Q.Queue.state self.now).broken }
    {
        self.latch.fault()
    }
}

impl<Q: Queue> Queue for CheckedQueue<Q> {
    type Order = Q::Order;

    ghost meaning = { checked Q.Queue.meaning Q.Order.Order.before };

    ghost state = { view Q.Queue.state };

    ghost keeps = { checked_keeps Q.Queue.meaning Q.Order.Order.before Q.Queue.keeps };

    fn order(&self) -> &Q::Order {
        self.below.order()
    }

    fn capacity(&self) -> u64 {
        self.table.tickets()
    }

    fn height(&self) -> u8 {
        self.below.height().saturating_add(1)
    }

    fn clear(&mut self) -> Result<(), QueueFault> {
        self.latch.unbroken()?;
        if self.table.tickets() == 0 {
            return Ok(());
        }
        let emptied = self.empty();
        self.latch.settle(emptied)
    }

    fn put(&mut self, ticket: u64, key: u64) -> Result<(), QueueFault> {
        self.latch.unbroken()?;
        self.may_put(ticket, key)
            .map_err(|cause| self.own(cause, ticket))?;
        let entered = self.enter(ticket, key);
        self.latch.settle(entered)
    }

    fn remove(&mut self, ticket: u64) -> Result<(), QueueFault> {
        self.latch.unbroken()?;
        self.may_remove(ticket)
            .map_err(|cause| self.own(cause, ticket))?;
        let taken = self.take(ticket);
        self.latch.settle(taken)
    }

    fn least(&mut self) -> Result<Option<u64>, QueueFault> {
        self.latch.unbroken()?;
        if self.table.first_waiting().is_none() {
            return Ok(None);
        }
        let named = self.name();
        self.latch.settle(named)
    }
}
