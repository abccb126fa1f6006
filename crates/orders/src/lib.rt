// Orders of keys: by the key itself, and by the rank of a fault.
#![tactic(auto)]

ghost use Rattle.std.specs.Prelude.{◌≡◌};
ghost use Rattle.order_laws.specs.Ranks.{earlier, rank_of, minute_of, by_fault};
ghost use Rattle.order_laws.proofs.Laws.{earlier_laws, lexical_laws};

use parts::order::Order;

// Smaller keys first.
#[derive(Clone, Copy, Debug, PartialEq, Eq)]
pub struct Earliest;

impl Order for Earliest {
    ghost before = { earlier };

    ghost laws = { earlier_laws };

    fn is_before(&self, one: u64, other: u64) -> bool {
        one < other
    }
}

// A key is a fault's class times 2^24 plus a minute: the smaller rank first, at equal rank the smaller minute.
#[derive(Clone, Copy, Debug, PartialEq, Eq)]
pub struct ByFault;

// The ranks of the classes from 0 up.
const RANKS: [u8; 16] = [8, 0, 1, 1, 2, 3, 3, 2, 2, 6, 6, 1, 7, 7, 9, 5];

const MINUTES: u64 = 0x100_0000;

fn rank(key: u64) -> u8
    ensures { result ≡ rank_of key }
{
    RANKS[(key / MINUTES % 16) as usize]
}

fn minute(key: u64) -> u64
    ensures { result ≡ minute_of key }
{
    key % MINUTES
}

impl Order for ByFault {
    ghost before = { by_fault };

    ghost laws = { lexical_laws rank_of minute_of };

    fn is_before(&self, one: u64, other: u64) -> bool {
        // and not as pairs, for which both minutes are worked out even where the ranks differ
        let first = rank(one);
        let second = rank(other);
        first < second || (first == second && minute(one) < minute(other))
    }
}
