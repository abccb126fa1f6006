// A list of calls performed on a checked queue just made, over any queue.
#![tactic(auto)]

ghost use Rattle.std.specs.Prelude.{◌≡◌, MatchResult};
ghost use Rattle.queue_laws.specs.QueueRuns.{answering};
ghost use Rattle.queue_laws.specs.QueuePromise.{all_answers, left, Promise};
ghost use Rattle.queue.specs.View.{view};

use parts::queue::Queue;
use queue::checked::CheckedQueue;
use queue_laws::call::{Answer, Call};
use runs::{Performs, perform_all};
use std::alloc::{AllocError, Global};

// A checked queue that answers calls given as values.
struct Answering<Q> {
    queue: CheckedQueue<Q>,
}

impl<Q: Queue> Performs for Answering<Q> {
    type Call = Call;

    type Answer = Answer;

    ghost machine = { answering Q.Queue.meaning Q.Order.before };

    ghost state = { λ s. view Q.Queue.state s.queue };

    fn perform(&mut self, call: Call) -> Answer {
        let queue = &mut self.queue;
        let outcome = match call {
            Call::Put { ticket, key } => queue.put(ticket, key).map(|()| Answer::Entered),
            Call::Remove { ticket } => queue.remove(ticket).map(|()| Answer::Removed),
            Call::Least => queue
                .least()
                .map(|named| named.map_or(Answer::Nothing, Answer::Named)),
            Call::Audit => queue.audit().map(|()| Answer::Passed),
            Call::Clear => queue.clear().map(|()| Answer::Cleared),
        };
        match outcome {
            Ok(answer) => answer,
            // As in memory_run, whose answers are an enum of their own: a call without a result was declined, unless the queue is broken.
            Err(fault) => match queue.fault() {
                None => Answer::Declined(fault),
                Some(_) => Answer::Failed(fault),
            },
        }
    }
}

// Makes a checked queue of so many tickets over the queue, performs the calls on it in turn, and gives the queue back with the
// answers. Where there is no memory for the answers, nothing is done.
pub fn perform<Q: Queue>(
    heap: Global,
    queue: Q,
    capacity: u64,
    calls: &[Call],
) -> (Q, Result<Vec<Answer>, AllocError>)
    ensures gives { MatchResult result.1
        (λ v. (v.items ≡ all_answers Q.Queue.meaning Q.Order.before capacity (Q.Queue.state queue) calls.now)
        × (Q.Queue.state result.0 ≡ (left Q.Queue.meaning Q.Order.before capacity (Q.Queue.state queue) calls.now).below))
        (λ _. result.0 ≡ queue) }
    ensures keeps { Promise Q.Queue.meaning Q.Order.before capacity (Q.Queue.state queue) calls.now }
{
    // memory_run takes these steps too: a function for both would ask for a trait with a method and a ghost member for the making and
    // for the taking apart, which is more than the steps.
    let mut all = match Vec::with_capacity(heap, calls.len()) {
        Ok(all) => all,
        Err(error) => return (queue, Err(error)),
    };
    let mut answering = Answering {
        queue: CheckedQueue::new(queue, capacity),
    };
    perform_all(&mut answering, calls, &mut all);
    let Answering { queue } = answering;
    (queue.into_queue(), Ok(all))
}
