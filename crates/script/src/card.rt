// The section `card`: notes kept on a card under the check.
ghost use Rattle.std.specs.Prelude.{◌≡◌, OnOk};
ghost use Rattle.words.specs.Taken.{left, rest_of};
ghost use Rattle.script.specs.Cards.{rule_of, rule_first, usual_tally, tally_said, write_said, read_said, card_reading};

use super::cells::Cells;
use memory_laws::call::Call;
use plan::kind::{Kind, Line, plain};
use words::reason::Reason;
use words::statement::Statement;
use words::words::Words;

#[derive(Clone, Copy, Debug, PartialEq, Eq)]
pub enum Rule {
    Sum,
    Xor,
}

// Which tally the check keeps, and under which key.
#[derive(Clone, Copy, Debug, PartialEq, Eq)]
pub struct Tally {
    pub rule: Rule,
    pub key: u64,
}

// The card, and the tally where it is given.
#[derive(Clone, Copy, Debug, PartialEq, Eq)]
pub struct Card {
    pub cells: Cells,
    pub tally: Option<Tally>,
}

impl TryFrom<&[u8]> for Rule {
    type Error = Reason;

    ghost try_from_gives = { λ word result. result ≡ rule_of word.now };

    fn try_from(word: &[u8]) -> Result<Rule, Reason> {
        match word {
            b"sum" => Ok(Rule::Sum),
            b"xor" => Ok(Rule::Xor),
            _ => Err(Reason::UnknownWord),
        }
    }
}

// The tally of a section that gives none.
impl Default for Tally {
    ghost is_default = { λ tally. tally ≡ usual_tally };

    fn default() -> Tally {
        Tally {
            rule: Rule::Sum,
            key: 0,
        }
    }
}

fn tally_line(words: &mut Words<'_>) -> Result<Line<Tally, Call>, Reason>
    ensures { result ≡ tally_said (left words.old) }
{
    let rule = Rule::try_from(words.word()?)?;
    let key = words.key()?;
    words.end()?;
    Ok(Line::Sets(Tally { rule, key }))
}

fn write_line(words: &mut Words<'_>) -> Result<Line<Tally, Call>, Reason>
    ensures { result ≡ write_said (left words.old) }
{
    let cell = words.number()?;
    let value = words.number()?;
    words.end()?;
    Ok(Line::Does(Call::Write { cell, value }))
}

fn read_line(words: &mut Words<'_>) -> Result<Line<Tally, Call>, Reason>
    ensures { result ≡ read_said (left words.old) }
{
    let cell = words.number()?;
    words.end()?;
    Ok(Line::Does(Call::Read { cell }))
}

impl Kind for Card {
    type Setting = Tally;

    type Call = Call;

    ghost reading = { card_reading };

    fn begin(words: &mut Words<'_>) -> Result<Card, Reason> {
        let cells = Cells::of(words)?;
        Ok(Card { cells, tally: None })
    }

    fn line(said: &mut Statement<'_>) -> Result<Line<Tally, Call>, Reason> {
        match said.name {
            b"tally" => tally_line(&mut said.words),
            b"write" => write_line(&mut said.words),
            b"read" => read_line(&mut said.words),
            b"sweep" => plain(Call::Sweep, &mut said.words),
            _ => Err(Reason::UnknownWord),
        }
    }

    fn has(&self, _: Tally) -> bool {
        self.tally.is_some()
    }

    fn set(&mut self, tally: Tally) {
        self.tally = Some(tally);
    }
}
