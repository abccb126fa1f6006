// Why the program does not perform a script.
use std::alloc::AllocError;
use std::{fmt, io};

const USAGE: &str = "usage: visits [--help] [SCRIPT]";

// What is printed of it on standard error, behind the program's name.
#[derive(Debug, Drop)]
pub enum Failure {
    UnknownOption(String),
    UnexpectedArgument(String),
    NoInput(io::Error),
    NoFile(String, io::Error),
    NoSection,
    System(io::Error),
}

impl fmt::Display for Failure {
    fn fmt<W: fmt::Write>(&self, f: &mut fmt::Formatter<W>) -> fmt::Result {
        match self {
            Failure::UnknownOption(option) => write!(f, "unknown option {option}; {USAGE}"),
            Failure::UnexpectedArgument(argument) => {
                write!(f, "unexpected argument {argument}; {USAGE}")
            }
            Failure::NoInput(error) => write!(f, "cannot read standard input: {error}"),
            Failure::NoFile(path, error) => write!(f, "cannot read {path}: {error}"),
            Failure::NoSection => write!(f, "the script has no section"),
            Failure::System(error) => write!(f, "{error}"),
        }
    }
}

impl From<io::Error> for Failure {
    fn from(error: io::Error) -> Failure {
        Failure::System(error)
    }
}

impl From<AllocError> for Failure {
    fn from(error: AllocError) -> Failure {
        Failure::System(io::Error::from(error))
    }
}
