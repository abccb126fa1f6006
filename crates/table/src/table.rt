// The arrays of a table.
ghost use Rattle.std.specs.Prelude.{◌≤◌};
ghost use Rattle.parts.specs.Queues.{most_tickets};

use parts::queue::MOST_TICKETS;

// Of each ticket below `tickets` whether it waits, its key, whether it has a bound, and the bound.
// That these are arrays of keys, bounds and flags, in fixed memory, is a form that the project asks for.
#[derive(Drop)]
pub struct Table {
    pub(crate) tickets: u64,
    pub(crate) waits: [bool; MOST_TICKETS],
    pub(crate) keys: [u64; MOST_TICKETS],
    pub(crate) bounded: [bool; MOST_TICKETS],
    pub(crate) bounds: [u64; MOST_TICKETS],
    ghost few: { tickets ≤ most_tickets },
}
