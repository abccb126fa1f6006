// A script: its sections.
ghost use Rattle.std.specs.Prelude.{◌≡◌, true, false, [], Ok, IfOk, MatchOption, OnOk};
ghost use Rattle.words.specs.Taken.{left};
ghost use Rattle.words.specs.Words.{words, lines};
ghost use Rattle.script.specs.Cards.{card_said};
ghost use Rattle.script.specs.Sections.{begins, bad_line, Begun, Took, taken_in, comment, Goes, LineTook, ScriptTook};

use super::card::Card;
use plan::plan::Plan;
use std::alloc::{AllocError, Global};
use words::lines::Lines;
use words::reason::{BadLine, Reason};
use words::statement::Statement;
use words::words::trim;

// A section of one of the kinds.
#[derive(Drop)]
pub enum Section<'a> {
    Card(Plan<'a, Card>),
}

// A section, or its first line that makes no sense.
pub type Outcome<'a> = Result<Section<'a>, BadLine>;

// A line of the script that has a word: its number, its text without the white space at its ends, and what it says.
#[derive(Drop)]
struct Line<'a> {
    number: u64,
    text: &'a [u8],
    said: Statement<'a>,
}

impl<'a> Line<'a> {
    // The line as one that makes no sense.
    fn bad(&self, reason: Reason) -> BadLine
        ensures { result ≡ bad_line self.now.number reason }
    {
        BadLine {
            line: self.number,
            reason,
        }
    }
}

impl<'a> Section<'a> {
    // The section that the line begins, if its first word is a section's.
    fn begin(heap: Global, line: &mut Line<'_>) -> Option<Outcome<'a>>
        ensures { MatchOption result ((begins line.old.said.name.now ≡ false) × (line.new ≡ line.old)) (λ s. (begins line.old.said.name.now ≡ true) × Begun line.old.number (card_said (left line.old.said.words)) s) }
    {
        match line.said.name {
            b"card" => match Plan::begin(heap, &mut line.said.words) {
                Ok(plan) => Some(Ok(Section::Card(plan))),
                Err(reason) => Some(Err(line.bad(reason))),
            },
            _ => None,
        }
    }

    // Takes in a line that goes to the section, in place, unless it makes no sense; want of memory ends the reading.
    fn take(&mut self, line: &mut Line<'a>) -> Result<Result<(), BadLine>, AllocError>
        ensures { IfOk result (λ taken. Took line.old.number line.old.said.name.now (left line.old.said.words) line.old.text (Ok self.old) (taken_in taken self.new)) }
    {
        match self {
            Section::Card(plan) => match plan.take(&mut line.said, line.text)? {
                Ok(()) => Ok(Ok(())),
                Err(reason) => Ok(Err(line.bad(reason))),
            },
        }
    }
}

// Hands a line to a section; one that makes no sense spoils it.
fn hand_on<'a>(section: &mut Outcome<'a>, line: &mut Line<'a>) -> Result<(), AllocError>
    ensures { OnOk result (Took line.old.number line.old.said.name.now (left line.old.said.words) line.old.text section.old section.new) }
{
    if let Ok(good) = section {
        if let Err(bad) = good.take(line)? {
            *section = Err(bad);
        }
    }
    Ok(())
}

fn is_comment(name: &[u8]) -> bool
    ensures { result ≡ comment name.now }
{
    matches!(name, [b'#', ..])
}

// Hands a line to the last section; where there is none, the line makes no sense.
fn go_on<'a>(sections: &mut Vec<Outcome<'a>>, line: &mut Line<'a>) -> Result<(), AllocError>
    ensures { OnOk result (Goes line.old.number line.old.said.name.now (left line.old.said.words) line.old.text sections.old.items sections.new.items) }
{
    match sections.last_mut() {
        Some(section) => hand_on(section, line),
        None => {
            sections.push(Err(line.bad(Reason::NoSection)))?;
            Ok(())
        }
    }
}

// Takes in a line of the script, without the white space at its ends.
fn take_line<'a>(
    sections: &mut Vec<Outcome<'a>>,
    heap: Global,
    number: u64,
    text: &'a [u8],
) -> Result<(), AllocError>
    ensures { OnOk result (LineTook number (words text.now) text.entry sections.old.items sections.new.items) }
{
    let Some(said) = Statement::of(text) else {
        return Ok(());
    };
    if is_comment(said.name) {
        return Ok(());
    }
    let mut line = Line { number, text, said };
    match Section::begin(heap, &mut line) {
        Some(section) => sections.push(section)?,
        None => go_on(sections, &mut line)?,
    }
    Ok(())
}

// The sections of a script, in their order. In place of one that has a line that makes no sense stands the first such line. The lines
// before the first section make a section of their own, in which none makes sense.
pub fn parse(heap: Global, script: &[u8]) -> Result<Vec<Outcome<'_>>, AllocError>
    ensures { IfOk result (λ v. ScriptTook 0 (lines script.now) [] v.items) }
{
    let mut sections = Vec::new(heap);
    for (index, text) in Lines::new(script).enumerate() {
        take_line(&mut sections, heap, index as u64 + 1, trim(text))?;
    }
    Ok(sections)
}
