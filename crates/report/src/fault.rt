// Causes and faults as text.
ghost use Rattle.std.specs.Prelude.{Some};
ghost use Rattle.report.specs.Shown.{shown_cause, shown_decline, shown_fault, shown_first};

use parts::fault::{Cause, Fault};
use std::fmt;

// The cause's number, and its name in brackets. This and the next two, which are in the line of each call that is declined or answered a
// fault, are put together piece by piece, their numbers by itoa: by `write!` a run of such calls took a sixth more instructions.
#[derive(Clone, Copy)]
pub struct Numbered(pub Cause);

impl fmt::Display for Numbered {
    ghost output = { λ cause. Some (shown_cause cause.0) };

    fn fmt<W: fmt::Write>(&self, f: &mut fmt::Formatter<W>) -> fmt::Result {
        let Numbered(cause) = *self;
        f.write_str(itoa::Buffer::new().format(u8::from(cause)))?;
        f.write_str(" (")?;
        f.write_str(cause.name())?;
        f.write_str(")")
    }
}

// A fault that declines a call.
#[derive(Clone, Copy)]
pub struct Declined(pub Fault);

impl fmt::Display for Declined {
    ghost output = { λ declined. Some (shown_decline declined.0) };

    fn fmt<W: fmt::Write>(&self, f: &mut fmt::Formatter<W>) -> fmt::Result {
        let Declined(declined) = *self;
        Numbered(declined.cause).fmt(f)?;
        f.write_str(" at ")?;
        f.write_str(itoa::Buffer::new().format(declined.place))
    }
}

// A fault that a part found.
#[derive(Clone, Copy)]
pub struct Found(pub Fault);

impl fmt::Display for Found {
    ghost output = { λ found. Some (shown_fault found.0) };

    fn fmt<W: fmt::Write>(&self, f: &mut fmt::Formatter<W>) -> fmt::Result {
        let Found(found) = *self;
        Numbered(found.cause).fmt(f)?;
        f.write_str(" height ")?;
        f.write_str(itoa::Buffer::new().format(found.height))?;
        f.write_str(" at ")?;
        f.write_str(itoa::Buffer::new().format(found.place))
    }
}

// The fault, or that there is none.
#[derive(Clone, Copy)]
pub struct FaultOrNone(pub Option<Fault>);

impl fmt::Display for FaultOrNone {
    ghost output = { λ first. Some (shown_first first.0) };

    fn fmt<W: fmt::Write>(&self, f: &mut fmt::Formatter<W>) -> fmt::Result {
        match self.0 {
            Some(fault) => write!(f, "{}", Found(fault)),
            None => write!(f, "none"),
        }
    }
}
