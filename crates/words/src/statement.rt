// What a line says.
ghost use Rattle.std.specs.Prelude.{◌≡◌, [], ◌∷◌, MatchOption};
ghost use Rattle.words.specs.Words.{words};
ghost use Rattle.words.specs.Taken.{left};

use super::words::Words;

// A line by its first word, and the words after it.
#[derive(Drop)]
pub struct Statement<'a> {
    pub name: &'a [u8],
    pub words: Words<'a>,
}

impl<'a> Statement<'a> {
    // What the line says, if it has a word.
    pub fn of(line: &'a [u8]) -> Option<Statement<'a>>
        ensures { MatchOption result (words line.now ≡ []) (λ said. words line.now ≡ said.name.now ∷ left said.words) }
    {
        let mut words = Words::new(line);
        let name = words.next()?;
        Some(Statement { name, words })
    }
}
