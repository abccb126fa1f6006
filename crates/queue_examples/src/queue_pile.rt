// A pile of two checked queues, over a heap over a checked memory over any store.
ghost use Rattle.std.specs.Prelude.{◌≡◌, ◌+◌, ◌≤◌, min, IfOk};
ghost use Rattle.parts.specs.Queues.{nothing_waits};
ghost use Rattle.heap_laws.specs.Cells.{room};
ghost use Rattle.queue_laws.specs.QueueRuns.{CanGive};

use heap::binary::Heap;
use memory::checked::CheckedMemory;
use parts::order::Order;
use parts::queue::Queue;
use parts::store::Store;
use queue::checked::CheckedQueue;
use queue_laws::call::{Answer, Call};
use queue_run::perform;
use std::alloc::{AllocError, Global};
use tallies::Sum;

// Performs the calls on a checked queue over another, over a heap whose cells are those of a checked memory. Over a loyal store of
// 48 bits with room for so many tickets, the answers are ones that an ideal queue can give, four heights up.
pub fn on_queue_pile<S: Store + Drop, O: Order + Drop>(
    heap: Global,
    bottom: S,
    order: O,
    capacity: u64,
    calls: &[Call],
) -> Result<Vec<Answer>, AllocError>
    ensures { S.Store.meaning.loyal (S.Store.state bottom) → S.Store.meaning.width (S.Store.state bottom) ≡ 48 →
        1 ≤ capacity → capacity ≤ room (S.Store.meaning.size (S.Store.state bottom)) 28 →
        IfOk result (λ v. CanGive O.Order.before (min 255 (min 255 (min 255 (min 255 (S.Store.meaning.height (S.Store.state bottom) + 1) + 1) + 1) + 1)) capacity nothing_waits calls.now v.items) }
{
    let cells = CheckedMemory::new(bottom, Sum { key: 7 });
    let lower = CheckedQueue::new(Heap::new(cells, order), capacity);
    let (_lower, answers) = perform(heap, lower, capacity, calls);
    answers
}
