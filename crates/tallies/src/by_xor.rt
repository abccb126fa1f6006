// The xor tally combines the mixes bit by bit.
ghost use Rattle.memory_laws.specs.Mix.{xor_tally};
ghost use Rattle.memory_laws.proofs.Mixes.{xor_laws};

use super::mix;
use parts::tally::Tally;

#[derive(Clone, Copy, Debug, PartialEq, Eq)]
pub struct Xor {
    pub key: u64,
}

impl Tally for Xor {
    type Value = u64;

    ghost tallying = { λ t. xor_tally t.key };

    ghost laws = { λ t. xor_laws t.key };

    fn start(&self) -> u64 {
        0
    }

    fn add(&self, value: u64, record: u64) -> u64 {
        value ^ mix(self.key, record)
    }

    fn same(&self, one: u64, other: u64) -> bool {
        one == other
    }
}
