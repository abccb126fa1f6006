// What a queue is: waiting entries, each a ticket and a key, of which it names one that none is before.
ghost use Rattle.std.specs.Prelude.{◌≡◌};
ghost use Rattle.parts.specs.Queues.{QueueMeaning, KeepsQueue, Names};

use super::fault::QueueFault;
use super::order::Order;

// The largest capacity that a queue has, and what every key is below.
pub const MOST_TICKETS: usize = 1024;

pub const KEY_LIMIT: u64 = 0x1000_0000;

pub trait Queue {
    // The order that the queue works in.
    type Order: Order;

    // The queue as a machine of plain values: its states, which of them are loyal, the entries that wait in them, and each
    // call's outcome.
    ghost meaning: { QueueMeaning };

    // The state that the value is in.
    ghost state: { Self → meaning.State };

    fn order(&self) -> &Self::Order;

    // How many tickets there are, numbered from 0.
    fn capacity(&self) -> u64
        ensures { result ≡ meaning.capacity (state self.now) };

    // How many parts stand below this one, at most 255.
    fn height(&self) -> u8
        ensures { result ≡ meaning.height (state self.now) };

    fn clear(&mut self) -> Result<(), QueueFault>
        ensures answer { result ≡ (meaning.clear (state self.old)).0 }
        ensures leaves { state self.new ≡ (meaning.clear (state self.old)).1 };

    fn put(&mut self, ticket: u64, key: u64) -> Result<(), QueueFault>
        ensures answer { result ≡ (meaning.put (state self.old) ticket key).0 }
        ensures leaves { state self.new ≡ (meaning.put (state self.old) ticket key).1 };

    fn remove(&mut self, ticket: u64) -> Result<(), QueueFault>
        ensures answer { result ≡ (meaning.remove (state self.old) ticket).0 }
        ensures leaves { state self.new ≡ (meaning.remove (state self.old) ticket).1 };

    // The ticket that the queue names, or none. A loyal queue names one whose key no waiting key is before.
    fn least(&mut self) -> Result<Option<u64>, QueueFault>
        ensures answer { result ≡ (meaning.least (state self.old)).0 }
        ensures leaves { state self.new ≡ (meaning.least (state self.old)).1 }
        ensures names { meaning.loyal (state self.old) → Names Self.Order.Order.before (meaning.entries (state self.old)) result };

    // What every loyal state keeps. A disloyal one owes nothing but the outcomes that the machine tells.
    ghost keeps: { KeepsQueue Self.Order.Order.before meaning };
}
