// What a kind of section is.
ghost use Rattle.std.specs.Prelude.{◌≡◌};
ghost use Rattle.words.specs.Taken.{left};
ghost use Rattle.plan.specs.Kinds.{Reading, plain_said};

use store_laws::Alteration;
use words::reason::Reason;
use words::statement::Statement;
use words::words::Words;

// What a line of a section says.
#[derive(Clone, Copy)]
pub enum Line<S: Copy, C: Copy> {
    Sets(S),
    Alters(Alteration),
    Does(C),
}

// A line that says a call by its first word alone.
pub fn plain<S: Copy, C: Copy>(call: C, words: &mut Words<'_>) -> Result<Line<S, C>, Reason>
    ensures { result ≡ plain_said call (left words.old) }
{
    words.end()?;
    Ok(Line::Does(call))
}

// A value is what the section's first line gives, with the settings so far.
pub trait Kind: Sized {
    type Setting: Copy;

    type Call: Copy;

    ghost reading: { Reading Self Self.Setting Self.Call };

    // What the section's first line gives, by the words after the first.
    fn begin(words: &mut Words<'_>) -> Result<Self, Reason>
        ensures { result ≡ reading.begun (left words.old) };

    // What another line says, alterations apart. Its first word stays.
    fn line(said: &mut Statement<'_>) -> Result<Line<Self::Setting, Self::Call>, Reason>
        ensures says { result ≡ reading.said said.old.name.now (left said.old.words) }
        ensures name { said.new.name ≡ said.old.name };

    // Whether such a setting was given.
    fn has(&self, setting: Self::Setting) -> bool
        ensures { result ≡ reading.given self.now setting };

    fn set(&mut self, setting: Self::Setting)
        ensures { self.new ≡ reading.with_setting self.old setting };
}
