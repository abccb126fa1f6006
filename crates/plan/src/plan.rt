// A section of any kind.
ghost use Rattle.std.specs.Prelude.{◌≡◌, IfOk, OnOk, nat_le};
ghost use Rattle.words.specs.Taken.{left};
ghost use Rattle.plan.specs.Plans.{alteration_said, last_after, Begins, line_said, admitted, read_line, Added, Takes};

use super::calls::Calls;
use super::kind::{Kind, Line};
use std::alloc::{AllocError, Global};
use store_laws::Alteration;
use words::reason::Reason;
use words::statement::Statement;
use words::words::{Words, is};

// A section as far as it is read.
#[derive(Drop)]
pub struct Plan<'a, K: Kind> {
    pub kind: K,
    pub alterations: Vec<Alteration>,
    pub calls: Calls<'a, K::Call>,
}

// AFTER CELL WORD. What reads the numbers of a line names each where it reads it, which an array of numbers would leave to its caller.
fn alteration(words: &mut Words<'_>) -> Result<Alteration, Reason>
    ensures { result ≡ alteration_said (left words.old) }
{
    let after = words.number()?;
    let cell = words.number()?;
    let word = words.number()?;
    words.end()?;
    Ok(Alteration { after, cell, word })
}

// Whether no alteration comes later.
fn rises_to(alterations: &[Alteration], after: u64) -> bool
    ensures { result ≡ nat_le (last_after alterations.now) after }
{
    alterations.last().is_none_or(|last| last.after <= after)
}

impl<'a, K: Kind> Plan<'a, K> {
    // The section that its first line begins, by the words after the first.
    pub fn begin(heap: Global, words: &mut Words<'_>) -> Result<Plan<'a, K>, Reason>
        ensures { Begins (K.Kind.reading.begun (left words.old)) result }
    {
        let kind = K::begin(words)?;
        Ok(Plan {
            kind,
            alterations: Vec::new(heap),
            calls: Calls::new(heap),
        })
    }

    // What a line says. Its first word stays, here and in the calls below.
    pub fn read(said: &mut Statement<'_>) -> Result<Line<K::Setting, K::Call>, Reason>
        ensures says { result ≡ line_said K.Kind.reading said.old.name.now (left said.old.words) }
        ensures name { said.new.name ≡ said.old.name }
    {
        if is(said.name, "alter") {
            Ok(Line::Alters(alteration(&mut said.words)?))
        } else {
            K::line(said)
        }
    }

    // Whether the line may stand here: settings before calls and each once, alterations in their order.
    fn admit(&self, line: Line<K::Setting, K::Call>) -> Result<(), Reason>
        ensures { result ≡ admitted K.Kind.reading self.now line }
    {
        match line {
            Line::Sets(setting) => {
                self.calls.setting()?;
                if self.kind.has(setting) {
                    Err(Reason::SettingTwice)
                } else {
                    Ok(())
                }
            }
            Line::Alters(alteration) => {
                self.calls.setting()?;
                if rises_to(self.alterations.as_slice(), alteration.after) {
                    Ok(())
                } else {
                    Err(Reason::NotRising)
                }
            }
            Line::Does(_) => Ok(()),
        }
    }

    // What a line says here.
    pub fn line(&self, said: &mut Statement<'_>) -> Result<Line<K::Setting, K::Call>, Reason>
        ensures says { result ≡ read_line K.Kind.reading self.now said.old.name.now (left said.old.words) }
        ensures name { said.new.name ≡ said.old.name }
    {
        let line = Self::read(said)?;
        self.admit(line)?;
        Ok(line)
    }

    // Takes in what a line says; its text is that of a call.
    pub fn add(&mut self, line: Line<K::Setting, K::Call>, text: &'a [u8]) -> Result<(), AllocError>
        ensures { OnOk result (Added K.Kind.reading self.old line text.entry self.new) }
    {
        match line {
            Line::Sets(setting) => self.kind.set(setting),
            Line::Alters(alteration) => self.alterations.push(alteration)?,
            Line::Does(call) => self.calls.push(call, text)?,
        }
        Ok(())
    }

    // Takes in a line after the first, unless it makes no sense. One error for a line that makes no sense and for want of memory would
    // be no plainer: the first spoils the section, the second ends the reading, and each caller would take them apart again.
    pub fn take(
        &mut self,
        said: &mut Statement<'_>,
        text: &'a [u8],
    ) -> Result<Result<(), Reason>, AllocError>
        ensures takes { IfOk result (λ t. Takes K.Kind.reading (read_line K.Kind.reading self.old said.old.name.now (left said.old.words)) self.old text.entry self.new t) }
        ensures name { said.new.name ≡ said.old.name }
    {
        match self.line(said) {
            Ok(line) => self.add(line, text)?,
            Err(reason) => return Ok(Err(reason)),
        }
        Ok(Ok(()))
    }
}
