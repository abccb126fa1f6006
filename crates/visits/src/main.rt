// The program: reads a script, performs its sections and prints what was done.
#![tactic(auto)]

use failure::Failure;
use print::Printer;
use script::section::{Section, parse};
use std::io::Read;
use std::process::ExitCode;
use std::{env, fs, io};

mod altered;
mod card;
mod failure;
mod help;
mod print;

// Performs the sections in turn. In place of one that makes no sense, its bad line is named on standard error.
fn perform_script(rt: &HostRuntime, script: &[u8]) -> Result<ExitCode, Failure> {
    let sections = parse(rt.alloc(), script)?;
    if sections.is_empty() {
        return Err(Failure::NoSection);
    }
    let mut printer = Printer::new(rt);
    let mut status = ExitCode::SUCCESS;
    for section in &sections {
        match section {
            Ok(Section::Card(plan)) => card::perform_and_print(&mut printer, plan)?,
            Err(bad) => {
                eprintln!(rt; "visits: {bad}")?;
                status = ExitCode::FAILURE;
            }
        }
    }
    Ok(status)
}

fn perform_input(rt: &HostRuntime) -> Result<ExitCode, Failure> {
    let mut script = Vec::new(rt.alloc());
    rt.stdin()
        .read_to_end(&mut script)
        .map_err(Failure::NoInput)?;
    perform_script(rt, script.as_slice())
}

fn perform_file(rt: &HostRuntime, path: String) -> Result<ExitCode, Failure> {
    let script = fs::read(rt, path.as_str()).map_err(|error| Failure::NoFile(path, error))?;
    perform_script(rt, script.as_slice())
}

fn perform_argument(rt: &HostRuntime, argument: String) -> Result<ExitCode, Failure> {
    match argument.as_str() {
        "-h" | "--help" => {
            rt.print(help::HELP)?;
            Ok(ExitCode::SUCCESS)
        }
        "-" => perform_input(rt),
        option if option.starts_with('-') => Err(Failure::UnknownOption(argument)),
        _ => perform_file(rt, argument),
    }
}

// Does what the arguments ask.
fn perform(rt: &HostRuntime) -> Result<ExitCode, Failure> {
    let mut arguments = env::args(rt)?.skip(1);
    let first = arguments.next();
    if let Some(second) = arguments.next() {
        return Err(Failure::UnexpectedArgument(second));
    }
    match first {
        Some(argument) => perform_argument(rt, argument),
        None => perform_input(rt),
    }
}

// Does so, and says on standard error why a script was not performed.
fn run(rt: &HostRuntime) -> io::Result<ExitCode> {
    match perform(rt) {
        Err(Failure::System(error)) => Err(error),
        Err(failure) => {
            eprintln!(rt; "visits: {failure}")?;
            Ok(ExitCode::FAILURE)
        }
        Ok(status) => Ok(status),
    }
}

fn main(rt: HostRuntime) -> ExitCode {
    run(&rt).unwrap_or_else(|error| {
        let _ = eprintln!(rt; "visits: {error}");
        ExitCode::FAILURE
    })
}
