// The cells of a heap, over any store.
ghost use Rattle.std.specs.Prelude.{◌≡◌, ◌+◌, ◌*◌, ◌<◌, ◌≤◌, min, IfOk};
ghost use Rattle.parts.specs.Queues.{found, most_tickets};
ghost use Rattle.parts.specs.declared.fault.Cause.TheVariants.{SenselessCell};
ghost use Rattle.heap_laws.specs.Cells.{entry_cells, room as room_of};
ghost use Rattle.heap_laws.specs.HeapMachine.{calling, as_ticket, ticket_at, key_at};
ghost use Rattle.heap.specs.View.{Does};

use parts::fault::{Cause, Fault, QueueFault};
use parts::queue::{KEY_LIMIT, MOST_TICKETS};
use parts::store::{MOST_BITS, MOST_CELLS, Store};

// How many cells an entry takes, and how many bits a cell needs to hold a key.
const ENTRY_CELLS: u64 = 3;

const LEAST_BITS: u32 = 28;

// The cells of an entry: that of its ticket, that of its key, and the one that tells where the ticket of the entry's number is.
pub(crate) const TICKET: u8 = 0;

pub(crate) const KEY: u8 = 1;

pub(crate) const PLACE: u8 = 2;

// The capacity of a heap over so many cells of so many bits, or 0, which it tells as such, where these are unfit: two ranges, which a
// function for all parts would not shorten.
pub(crate) fn room(size: u64, width: u32) -> u64
    ensures value { result ≡ room_of size width }
    ensures few { result ≤ most_tickets }
{
    if (ENTRY_CELLS..=MOST_CELLS).contains(&size) && (LEAST_BITS..=MOST_BITS).contains(&width) {
        (size / ENTRY_CELLS).min(MOST_TICKETS as u64)
    } else {
        0
    }
}

// One of the cells of an entry. (The numbers of entries stay plain: a type for those below 1,024 would be made and unmade at each
// call of this and of the two readers, for the three clauses that it spares.)
pub(crate) fn cell<const PART: u8>(index: u64) -> u64
    requires { index < most_tickets }
    ensures { result ≡ entry_cells * index + PART }
{
    ENTRY_CELLS * index + u64::from(PART)
}

// The height of a heap over the store. Three clauses say it in full, for which a name would be one word more to look up.
pub(crate) fn height_over<S: Store>(store: &S) -> u8
    ensures { result ≡ min 255 (S.Store.meaning.height (S.Store.state store.now) + 1) }
{
    store.height().saturating_add(1)
}

// A fault that the heap itself finds. Each part makes its own, since each knows its height in its own way.
pub(crate) fn own<S: Store>(store: &S, cause: Cause, ticket: u64) -> QueueFault
    ensures { result ≡ found cause (min 255 (S.Store.meaning.height (S.Store.state store.now) + 1)) ticket }
{
    QueueFault::Found(Fault {
        cause,
        height: height_over(store),
        place: ticket,
    })
}

// What a cell holds makes no sense.
pub(crate) fn senseless<S: Store>(store: &S) -> QueueFault
    ensures { result ≡ found SenselessCell (min 255 (S.Store.meaning.height (S.Store.state store.now) + 1)) 0 }
{
    own(store, Cause::SenselessCell, 0)
}

// What a cell holds: it makes sense below a limit.
fn read_below<S: Store>(store: &mut S, cell: u64, limit: u64) -> Result<u64, QueueFault>
    ensures does { Does S.Store.state store.old store.new result (λ s. calling S.Store.meaning (S.Store.meaning.read s cell) (as_ticket S.Store.meaning limit)) }
    ensures below { IfOk result (λ w. w < limit) }
{
    let word = store.read(cell)?;
    if word >= limit {
        return Err(senseless(store));
    }
    Ok(word)
}

// The ticket of an entry.
pub(crate) fn ticket_at<S: Store>(
    store: &mut S,
    capacity: u64,
    index: u64,
) -> Result<u64, QueueFault>
    requires { index < most_tickets }
    ensures does { Does S.Store.state store.old store.new result (ticket_at S.Store.meaning capacity index) }
    ensures below { IfOk result (λ t. t < capacity) }
{
    read_below(store, cell::<TICKET>(index), capacity)
}

// The key of an entry.
pub(crate) fn key_at<S: Store>(store: &mut S, index: u64) -> Result<u64, QueueFault>
    requires { index < most_tickets }
    ensures { Does S.Store.state store.old store.new result (key_at S.Store.meaning index) }
{
    read_below(store, cell::<KEY>(index), KEY_LIMIT)
}
