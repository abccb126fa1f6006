// The sum tally adds the mixes modulo 2^64.
ghost use Rattle.memory_laws.specs.Mix.{sum_tally};
ghost use Rattle.memory_laws.proofs.Mixes.{sum_laws};

use super::mix;
use parts::tally::Tally;

#[derive(Clone, Copy, Debug, PartialEq, Eq)]
pub struct Sum {
    pub key: u64,
}

impl Tally for Sum {
    type Value = u64;

    ghost tallying = { λ t. sum_tally t.key };

    ghost laws = { λ t. sum_laws t.key };

    fn start(&self) -> u64 {
        0
    }

    fn add(&self, value: u64, record: u64) -> u64 {
        value.wrapping_add(mix(self.key, record))
    }

    fn same(&self, one: u64, other: u64) -> bool {
        one == other
    }
}
