// Why a line makes no sense.
ghost use Rattle.std.specs.Prelude.{◌≡◌, Some};
ghost use Rattle.words.specs.Lines.{text_of, bad_text};

use std::fmt;

#[derive(Clone, Copy, Debug, PartialEq, Eq)]
pub enum Reason {
    UnknownWord,
    MissingWord,
    ExtraWord,
    NotANumber,
    NotAKey,
    NoSection,
    SettingAfterCall,
    SettingTwice,
    NotRising,
}

impl Reason {
    pub fn text(self) -> &'static str
        ensures { result.now ≡ text_of self }
    {
        match self {
            Reason::UnknownWord => "unknown word",
            Reason::MissingWord => "a word is missing",
            Reason::ExtraWord => "a word too many",
            Reason::NotANumber => "not a number of 64 bits",
            Reason::NotAKey => "not a key of 1 to 16 hexadecimal digits",
            Reason::NoSection => "no section has begun",
            Reason::SettingAfterCall => "a setting after the first call",
            Reason::SettingTwice => "a setting given twice",
            Reason::NotRising => "alterations not by rising AFTER",
        }
    }
}

impl fmt::Display for Reason {
    ghost output = { λ reason. Some (text_of reason) };

    fn fmt<W: fmt::Write>(&self, f: &mut fmt::Formatter<W>) -> fmt::Result {
        f.write_str(self.text())
    }
}

// A line that makes no sense, by its number in the script.
#[derive(Clone, Copy, Debug, PartialEq, Eq)]
pub struct BadLine {
    pub line: u64,
    pub reason: Reason,
}

impl fmt::Display for BadLine {
    ghost output = { λ bad. Some (bad_text bad) };

    fn fmt<W: fmt::Write>(&self, f: &mut fmt::Formatter<W>) -> fmt::Result {
        let BadLine { line, reason } = *self;
        write!(f, "line {line}: {reason}")
    }
}
