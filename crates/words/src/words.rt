// The words of a line, taken one by one.
ghost use Rattle.std.specs.Prelude.{◌≡◌, ◌≤◌, [], ◌∷◌, length, MatchResult, OnOk};
ghost use Rattle.std.specs.Iterator.{YieldsFirstRef, item_count};
ghost use Rattle.std.specs.List.{prefix_len, suffix_len};
ghost use Rattle.std.specs.Str.{bytes_eq};
ghost use Rattle.words.specs.Words.{white, dark, words, trimmed};
ghost use Rattle.words.specs.declared.reason.Reason.TheVariants.{MissingWord};
ghost use Rattle.words.specs.Taken.{left, number_first, key_first, ended, rest_of};

use super::number;
use super::reason::Reason;

// Space, tab or carriage return.
fn is_white(byte: u8) -> bool
    ensures { result ≡ white byte }
{
    byte == b' ' || byte == b'\t' || byte == b'\r'
}

// Whether the word is this one.
pub fn is(word: &[u8], name: &str) -> bool
    ensures { result ≡ bytes_eq word.now name.now }
{
    word == name.as_bytes()
}

// How many bytes at the front are white. This and the next two are a chain each: one function of the test and the end it begins at would
// ask for the clauses of a closure, and be no shorter.
fn gap_len(line: &[u8]) -> usize
    ensures within { result ≤ length line.now }
    ensures value { result ≡ prefix_len white line.now }
{
    line.iter().take_while(|b| is_white(**b)).count()
}

// How many bytes at the front are not white.
fn word_len(line: &[u8]) -> usize
    ensures within { result ≤ length line.now }
    ensures value { result ≡ prefix_len dark line.now }
{
    line.iter().take_while(|b| !is_white(**b)).count()
}

// How many bytes at the end are white.
fn end_gap_len(line: &[u8]) -> usize
    ensures within { result ≤ length line.now }
    ensures value { result ≡ suffix_len white line.now }
{
    line.iter().rev().take_while(|b| is_white(**b)).count()
}

// The line without the white space at both ends.
pub fn trim(line: &[u8]) -> &[u8]
    ensures { result.now ≡ trimmed line.now }
{
    let (_, line) = line.split_at(gap_len(line));
    let (line, _) = line.split_at(line.len() - end_gap_len(line));
    line
}

// What is left of a line.
#[derive(Drop)]
pub struct Words<'a> {
    rest: &'a [u8],
}

impl<'a> Words<'a> {
    pub fn new(line: &'a [u8]) -> Words<'a>
        ensures { left result ≡ words line.now }
    {
        Words { rest: line }
    }

    // The next word, which has to be there.
    pub fn word(&mut self) -> Result<&'a [u8], Reason>
        ensures { MatchResult result (λ w. left self.old ≡ w.now ∷ left self.new) (λ why. (left self.old ≡ []) × (why ≡ MissingWord)) }
    {
        self.next().ok_or(Reason::MissingWord)
    }

    // The next word as a decimal number.
    pub fn number(&mut self) -> Result<u64, Reason>
        ensures value { result ≡ number_first (left self.old) }
        ensures rest { OnOk result (left self.new ≡ rest_of (left self.old)) }
    {
        number::decimal(self.word()?)
    }

    // The next word as a key.
    pub fn key(&mut self) -> Result<u64, Reason>
        ensures value { result ≡ key_first (left self.old) }
        ensures rest { OnOk result (left self.new ≡ rest_of (left self.old)) }
    {
        number::key(self.word()?)
    }

    // There are no more words.
    pub fn end(&mut self) -> Result<(), Reason>
        ensures { result ≡ ended (left self.old) }
    {
        self.next().map_or(Ok(()), |_| Err(Reason::ExtraWord))
    }
}

impl<'a> Iterator for Words<'a> {
    type Item = &'a [u8];

    ghost next_gives = { YieldsFirstRef left };

    ghost remaining = { item_count left };

    fn next(&mut self) -> Option<&'a [u8]> {
        let (_, line) = self.rest.split_at(gap_len(self.rest));
        let (word, rest) = line.split_at(word_len(line));
        self.rest = rest;
        if word.is_empty() { None } else { Some(word) }
    }
}
