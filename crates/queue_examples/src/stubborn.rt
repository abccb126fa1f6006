// A queue that accepts everything and names one ticket for ever.
ghost use Rattle.queue_examples.specs.Stubborn.{stubborn};

use orders::Earliest;
use parts::fault::QueueFault;
use parts::queue::{MOST_TICKETS, Queue};

#[derive(Drop)]
pub struct Stubborn {
    pub order: Earliest,
    pub ticket: u64,
}

impl Queue for Stubborn {
    type Order = Earliest;

    ghost meaning = { stubborn };

    ghost state = { λ s. s.ticket };

    // nothing is owed by what is never loyal
    ghost keeps = { record {
      fits = λ s h. absurd h;
      within = λ s h. absurd h;
      names = λ s h. absurd h;
      clears = λ s h. absurd h;
      puts = λ s h. absurd h;
      removes = λ s h. absurd h;
      leasts = λ s h. absurd h;
    } };

    fn order(&self) -> &Earliest {
        &self.order
    }

    fn capacity(&self) -> u64 {
        MOST_TICKETS as u64
    }

    fn height(&self) -> u8 {
        0
    }

    fn clear(&mut self) -> Result<(), QueueFault> {
        Ok(())
    }

    fn put(&mut self, _ticket: u64, _key: u64) -> Result<(), QueueFault> {
        Ok(())
    }

    fn remove(&mut self, _ticket: u64) -> Result<(), QueueFault> {
        Ok(())
    }

    fn least(&mut self) -> Result<Option<u64>, QueueFault> {
        Ok(Some(self.ticket))
    }
}
