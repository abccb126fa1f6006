// What is printed of a section's calls, whatever its kind.
ghost use Rattle.std.specs.Prelude.{◌≡◌, ℕ, List, ◌++◌, Option, Some, OnOk};
ghost use Rattle.parts.specs.declared.fault.Fault.{Fault};
ghost use Rattle.report.specs.Shown.{shown_line, first_of};

use super::out::Out;
use parts::fault::Fault;
use std::alloc::AllocError;
use std::fmt;

// An answer to a call.
pub trait Shown {
    // What prints it.
    type Text: fmt::Display + Drop;

    // Its text, and the fault that it reports.
    ghost shown: { Self → List ℕ };

    ghost reported: { Self → Option Fault };

    fn display(&self) -> Self::Text
        ensures { Self.Text.output result ≡ Some (shown self.now) };

    fn fault(&self) -> Option<Fault>
        ensures { result ≡ reported self.now };
}

// The line of a call: its number, its text and its answer.
pub fn line<A: Shown>(out: &mut Out, number: u64, text: &[u8], answer: &A) -> Result<(), AllocError>
    ensures { OnOk result (out.new ≡ out.old ++ shown_line number text.now (A.Shown.shown answer.now)) }
{
    out.number(number)?;
    out.raw(b" ")?;
    out.raw(text)?;
    writeln!(out, ": {}", answer.display())
}

// The first fault that an answer reports.
pub fn first_fault<A: Shown>(answers: &[A]) -> Option<Fault>
    ensures { result ≡ first_of A.Shown.reported answers.now }
{
    answers.iter().find_map(|answer| answer.fault())
}
