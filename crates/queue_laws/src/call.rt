// The calls of a checked queue, and what they are answered.
use parts::fault::QueueFault;

#[derive(Clone, Copy, Debug, PartialEq, Eq)]
pub enum Call {
    Put { ticket: u64, key: u64 },
    Remove { ticket: u64 },
    Least,
    Audit,
    Clear,
}

// A call without a result was declined, and the queue goes on, or failed, and the queue is broken.
#[derive(Clone, Copy, Debug, PartialEq, Eq)]
pub enum Answer {
    Entered,
    Removed,
    Named(u64),
    Nothing,
    Passed,
    Cleared,
    Declined(QueueFault),
    Failed(QueueFault),
}
