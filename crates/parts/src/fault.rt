// Faults: what a call ends in where it has no result.
ghost use Rattle.std.specs.Prelude.{◌≡◌, Some};
ghost use Rattle.parts.specs.Causes.{number_of, words_of};
ghost use Rattle.parts.specs.Queues.{carried};
ghost use Rattle.parts.specs.declared.fault.QueueFault.TheVariants.{Store};

use std::fmt;

// Why a call has no result. The numbers 1 to 9 decline a call; those from 21 up report what a part found.
#[derive(Clone, Copy, Debug, PartialEq, Eq)]
pub enum Cause {
    NoSuchCell = 1,
    WordTooWide = 2,
    NoSuchTicket = 3,
    KeyTooLarge = 4,
    TicketInUse = 5,
    NotWaiting = 6,
    UnfitToOpen = 7,
    UnlikeLists = 8,
    NoSuchCall = 9,
    WiderThanStore = 21,
    StampAhead = 22,
    TalliesDiffer = 23,
    NothingNamed = 24,
    NamedNotWaiting = 25,
    KeyBeforeBound = 26,
    SenselessCell = 27,
    ReplayEnded = 28,
}

impl From<Cause> for u8 {
    ghost from_gives = { λ cause n. n ≡ number_of cause };

    fn from(cause: Cause) -> u8 {
        cause as u8
    }
}

impl Cause {
    // The cause in words.
    pub fn name(self) -> &'static str
        ensures { result.now ≡ words_of self }
    {
        match self {
            Cause::NoSuchCell => "no such cell",
            Cause::WordTooWide => "word too wide",
            Cause::NoSuchTicket => "no such ticket",
            Cause::KeyTooLarge => "key too large",
            Cause::TicketInUse => "ticket in use",
            Cause::NotWaiting => "not waiting",
            Cause::UnfitToOpen => "unfit to open",
            Cause::UnlikeLists => "lists of unlike length",
            Cause::NoSuchCall => "no such call",
            Cause::WiderThanStore => "word wider than the store",
            Cause::StampAhead => "stamp ahead of the clock",
            Cause::TalliesDiffer => "tallies differ",
            Cause::NothingNamed => "nothing named",
            Cause::NamedNotWaiting => "named ticket not waiting",
            Cause::KeyBeforeBound => "key before its bound",
            Cause::SenselessCell => "senseless heap cell",
            Cause::ReplayEnded => "replay ended",
        }
    }
}

impl fmt::Display for Cause {
    ghost output = { λ cause. Some (words_of cause) };

    fn fmt<W: fmt::Write>(&self, f: &mut fmt::Formatter<W>) -> fmt::Result {
        f.write_str(self.name())
    }
}

// A cause, the height of the part that found it, and the place: a cell for a store, a ticket for a queue, or 0.
// A part at the bottom has height 0, any other the height below it plus one, at most 255.
#[derive(Clone, Copy, Debug, PartialEq, Eq)]
pub struct Fault {
    pub cause: Cause,
    pub height: u8,
    pub place: u64,
}

// A fault that a call of a queue ends in: one that a queue found, whose place is a ticket, or one that a store below found, whose
// place is a cell. A store's fault is carried whole.
#[derive(Clone, Copy, Debug, PartialEq, Eq)]
pub enum QueueFault {
    Found(Fault),
    Store(Fault),
}

impl From<Fault> for QueueFault {
    ghost from_gives = { λ f q. q ≡ Store f };

    fn from(fault: Fault) -> QueueFault {
        QueueFault::Store(fault)
    }
}

impl QueueFault {
    // The fault that is carried, whichever part found it.
    pub fn carried(self) -> Fault
        ensures { result ≡ carried self }
    {
        match self {
            QueueFault::Found(fault) => fault,
            QueueFault::Store(fault) => fault,
        }
    }
}
