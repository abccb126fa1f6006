// Worked examples of the queue side: a table of them, shown of the definitions, a pile of checked queues, and a queue that
// names one ticket for ever.
#![tactic(auto)]

ghost use Rattle.queue_examples.specs.QueueTable.{QueueTable};

pub mod queue_pile;
pub mod stubborn;

// The table of examples holds.
pub fn queue_examples_hold() -> u8
    ensures { QueueTable }
{
    0
}

#[cfg(test)]
mod queue_tests;
