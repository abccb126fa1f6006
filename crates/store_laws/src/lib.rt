// The machines that the bottom stores and the altering store are, in specs/, and what they keep, in proofs/.
#![tactic(auto)]

// An alteration by somebody with a key: after so many accesses of a store, and before the next, the cell holds the word.
#[derive(Clone, Copy, Debug, PartialEq, Eq)]
pub struct Alteration {
    pub after: u64,
    pub cell: u64,
    pub word: u64,
}
