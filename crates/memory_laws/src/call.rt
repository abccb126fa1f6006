// The calls of a list that is performed on a checked memory, and their answers.
use parts::fault::Fault;

#[derive(Clone, Copy, Debug, PartialEq, Eq)]
pub enum Call {
    Write { cell: u64, value: u64 },
    Read { cell: u64 },
    Sweep,
}

#[derive(Clone, Copy, Debug, PartialEq, Eq)]
pub enum Answer {
    Written,
    Value(u64),
    Passed,
    // The memory declined the call, and goes on.
    Declined(Fault),
    // The memory is broken: this is its first fault.
    Failed(Fault),
}
