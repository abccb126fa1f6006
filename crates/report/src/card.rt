// What is printed of a card section.
ghost use Rattle.std.specs.Prelude.{◌≡◌, ◌++◌, Some, count_by, OnOk};
ghost use Rattle.report.specs.Cards.{shown_answer, fault_of, is_passed, shown_card, shown_done, shown_summary};

use super::fault::{Declined, FaultOrNone, Found};
use super::out::Out;
use super::shown::{Shown, first_fault};
use memory_laws::call::Answer;
use parts::fault::Fault;
use std::alloc::AllocError;
use std::fmt;

// An answer as text.
#[derive(Clone, Copy)]
pub struct Text(Answer);

impl fmt::Display for Text {
    ghost output = { λ text. Some (shown_answer text.0) };

    fn fmt<W: fmt::Write>(&self, f: &mut fmt::Formatter<W>) -> fmt::Result {
        match self.0 {
            Answer::Written => write!(f, "written"),
            Answer::Value(value) => write!(f, "value {value}"),
            Answer::Passed => write!(f, "passed"),
            Answer::Declined(fault) => {
                f.write_str("declined ")?;
                Declined(fault).fmt(f)
            }
            Answer::Failed(fault) => {
                f.write_str("fault ")?;
                Found(fault).fmt(f)
            }
        }
    }
}

impl Shown for Answer {
    type Text = Text;

    ghost shown = { shown_answer };

    ghost reported = { fault_of };

    fn display(&self) -> Text {
        Text(*self)
    }

    fn fault(&self) -> Option<Fault> {
        match *self {
            Answer::Failed(fault) => Some(fault),
            _ => None,
        }
    }
}

// How many sweeps passed.
fn passed(answers: &[Answer]) -> usize
    ensures { result ≡ count_by is_passed answers.now }
{
    answers
        .iter()
        .filter(|answer| matches!(**answer, Answer::Passed))
        .count()
}

// What was done.
#[derive(Clone, Copy)]
struct Done<'a>(&'a [Answer]);

impl fmt::Display for Done<'_> {
    ghost output = { λ done. Some (shown_done done.0.now) };

    fn fmt<W: fmt::Write>(&self, f: &mut fmt::Formatter<W>) -> fmt::Result {
        let calls = self.0.len();
        let passed = passed(self.0);
        let first = FaultOrNone(first_fault(self.0));
        write!(
            f,
            "calls {calls}, sweeps passed {passed}, first fault {first}"
        )
    }
}

// The line at the end of a section: what was done.
pub fn summary(out: &mut Out, size: u64, width: u64, answers: &[Answer]) -> Result<(), AllocError>
    ensures { OnOk result (out.new ≡ out.old ++ shown_summary size width answers.now) }
{
    writeln!(out, "card {size} {width}: {}", Done(answers))
}
