// A list of calls performed on a checked memory just made, over any store.
#![tactic(auto)]

ghost use Rattle.std.specs.Prelude.{◌≡◌, MatchResult};
ghost use Rattle.memory_laws.specs.Checked.{plain};
ghost use Rattle.memory_laws.specs.Runs.{answering};
ghost use Rattle.memory_laws.specs.Promise.{all_answers, left, Promise};
ghost use Rattle.memory.specs.View.{view};

use memory::checked::CheckedMemory;
use memory_laws::call::{Answer, Call};
use parts::store::Store;
use parts::tally::Tally;
use runs::{Performs, perform_all};
use std::alloc::{AllocError, Global};

// A checked memory that answers calls given as values.
struct Answering<S, T: Tally> {
    memory: CheckedMemory<S, T>,
}

impl<S: Store, T: Tally> Performs for Answering<S, T> {
    type Call = Call;

    type Answer = Answer;

    ghost machine = { answering (plain S.Store.meaning) T.Tally.tallying };

    ghost state = { λ s. view S.Store.state s.memory };

    fn perform(&mut self, call: Call) -> Answer {
        let memory = &mut self.memory;
        let outcome = match call {
            Call::Write { cell, value } => memory.write(cell, value).map(|()| Answer::Written),
            Call::Read { cell } => memory.read(cell).map(Answer::Value),
            Call::Sweep => memory.sweep().map(|()| Answer::Passed),
        };
        match outcome {
            Ok(answer) => answer,
            // As in queue_run, whose answers are an enum of their own: a call without a result was declined, unless the memory is broken.
            Err(fault) => match memory.fault() {
                None => Answer::Declined(fault),
                Some(_) => Answer::Failed(fault),
            },
        }
    }
}

// Makes a checked memory over the store, performs the calls on it in turn, and gives the store back with the answers.
// Where there is no memory for the answers, nothing is done.
pub fn perform<S: Store, T: Tally + Drop>(
    heap: Global,
    store: S,
    tally: T,
    calls: &[Call],
) -> (S, Result<Vec<Answer>, AllocError>)
    ensures gives { MatchResult result.1
        (λ v. (v.items ≡ all_answers S.Store.meaning T.Tally.tallying (S.Store.state store) tally calls.now)
        × (S.Store.state result.0 ≡ (left S.Store.meaning T.Tally.tallying (S.Store.state store) tally calls.now).store.below))
        (λ _. result.0 ≡ store) }
    ensures keeps { Promise S.Store.meaning T.Tally.tallying (S.Store.state store) tally calls.now }
{
    // queue_run takes these steps too: a function for both would ask for a trait with a method and a ghost member for the making and
    // for the taking apart, which is more than the steps.
    let mut all = match Vec::with_capacity(heap, calls.len()) {
        Ok(all) => all,
        Err(error) => return (store, Err(error)),
    };
    let mut answering = Answering {
        memory: CheckedMemory::new(store, tally),
    };
    perform_all(&mut answering, calls, &mut all);
    let Answering { memory } = answering;
    (memory.into_store(), Ok(all))
}
