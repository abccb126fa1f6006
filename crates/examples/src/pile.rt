// A pile of two checked memories with different tallies, over any store.
ghost use Rattle.std.specs.Prelude.{◌≡◌, ◌+◌, ◌-◌, ◌<◌, min, replicate, IfOk};
ghost use Rattle.memory_laws.specs.Runs.{ideal_answers};

use memory::checked::CheckedMemory;
use memory_laws::call::{Answer, Call};
use memory_run::perform;
use parts::store::Store;
use std::alloc::{AllocError, Global};
use tallies::{Sum, Xor};

// Performs the calls on a memory with an xor tally over one with a sum tally. Over a loyal store whose words leave bits
// for both stamps the answers are those of an ideal memory, two heights up.
pub fn on_pile<S: Store + Drop>(
    heap: Global,
    bottom: S,
    calls: &[Call],
) -> Result<Vec<Answer>, AllocError>
    ensures { S.Store.meaning.loyal (S.Store.state bottom) → 40 < S.Store.meaning.width (S.Store.state bottom) →
        IfOk result (λ v. v.items ≡ ideal_answers (min 255 (min 255 (S.Store.meaning.height (S.Store.state bottom) + 1) + 1))
        (S.Store.meaning.size (S.Store.state bottom)) (S.Store.meaning.width (S.Store.state bottom) - 20 - 20)
        (replicate (S.Store.meaning.size (S.Store.state bottom)) 0) calls.now) }
{
    let lower = CheckedMemory::new(bottom, Sum { key: 7 });
    let (_lower, answers) = perform(heap, lower, Xor { key: 9 }, calls);
    answers
}
