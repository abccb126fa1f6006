// The lines of a script.
ghost use Rattle.std.specs.Prelude.{◌≡◌, ◌<◌, ◌≤◌, ◌∷◌, length};
ghost use Rattle.std.specs.Iterator.{YieldsFirstRef, item_count};
ghost use Rattle.std.specs.List.{position};
ghost use Rattle.words.specs.Words.{ends_line, lines};
ghost use Rattle.words.specs.Taken.{lines_left};

// Where the first line break stands.
fn break_at(text: &[u8]) -> Option<usize>
    ensures { result ≡ position ends_line text.now }
{
    text.iter().position(|b| *b == b'\n')
}

// The first line, without its break, and the text of the others.
pub fn split_line(text: &[u8]) -> (&[u8], &[u8])
    ensures first { 0 < length text.now → lines text.now ≡ result.0.now ∷ lines result.1.now }
    ensures less { 0 < length text.now → length result.1.now < length text.now }
{
    match break_at(text) {
        Some(n) => (&text[..n], &text[n + 1..]),
        None => (text, &[]),
    }
}

// What is left of a text, line by line.
#[derive(Drop)]
pub struct Lines<'a> {
    rest: &'a [u8],
}

impl<'a> Lines<'a> {
    #[tactic(auto, using(crate::proofs::LineSteps::few_lines))]
    pub fn new(text: &'a [u8]) -> Lines<'a>
        ensures left { lines_left result ≡ lines text.now }
        ensures few { length (lines_left result) ≤ length text.now }
    {
        Lines { rest: text }
    }
}

impl<'a> Iterator for Lines<'a> {
    type Item = &'a [u8];

    ghost next_gives = { YieldsFirstRef lines_left };

    ghost remaining = { item_count lines_left };

    fn next(&mut self) -> Option<&'a [u8]> {
        if self.rest.is_empty() {
            return None;
        }
        let (line, rest) = split_line(self.rest);
        self.rest = rest;
        Some(line)
    }
}
