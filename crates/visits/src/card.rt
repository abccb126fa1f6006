// Card sections, performed and printed.
ghost use Rattle.std.specs.Prelude.{◌≡◌, IfOk};
ghost use Rattle.visits.specs.Cards.{answers_under, answers_to};

use super::altered;
use super::print::Printer;
use memory_laws::call::Answer;
use memory_run::perform;
use parts::tally::Tally;
use plan::plan::Plan;
use report::card::summary;
use script::card::{Card, Rule};
use std::alloc::{AllocError, Global};
use std::io;
use tallies::{Sum, Xor};

// The answers to the section's calls under the tally.
fn answers_under<T: Tally + Drop>(
    heap: Global,
    tally: T,
    plan: &Plan<'_, Card>,
) -> Result<Vec<Answer>, AllocError>
    ensures { IfOk result (λ v. v.items ≡ answers_under T.Tally.tallying tally plan.now) }
{
    let cells = plan.kind.cells;
    let mut words = altered::words(heap, cells)?;
    let store = altered::card(cells, words.as_mut_slice(), plan.alterations.as_slice());
    perform(heap, store, tally, plan.calls.as_slice()).1
}

// The answers to the section's calls.
fn answers(heap: Global, plan: &Plan<'_, Card>) -> Result<Vec<Answer>, AllocError>
    ensures { IfOk result (λ v. v.items ≡ answers_to plan.now) }
{
    let tally = plan.kind.tally.unwrap_or_default();
    match tally.rule {
        Rule::Sum => answers_under(heap, Sum { key: tally.key }, plan),
        Rule::Xor => answers_under(heap, Xor { key: tally.key }, plan),
    }
}

// Performs the section's calls and prints what was done.
pub fn perform_and_print(printer: &mut Printer<'_>, plan: &Plan<'_, Card>) -> io::Result<()> {
    let answers = answers(printer.alloc(), plan)?;
    printer.lines(plan.calls.texts(), answers.as_slice())?;
    let cells = plan.kind.cells;
    summary(
        &mut printer.out,
        cells.size,
        cells.width,
        answers.as_slice(),
    )?;
    printer.flush()
}
