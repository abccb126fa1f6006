// Worked examples: a table of them, shown of the definitions, and a pile of two checked memories.
#![tactic(auto)]

ghost use Rattle.examples.specs.Table.{Table};

use parts::store::Store;
use parts::tally::Tally;

pub mod pile;

// The table of examples holds, over any store and with any tally.
pub fn examples_hold<S: Store, T: Tally>(_store: &S, _tally: &T) -> u8
    ensures { Table S.Store.meaning T.Tally.tallying }
{
    0
}

#[cfg(test)]
mod tests;
