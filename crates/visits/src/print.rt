// Printing by the block.
use report::out::Out;
use report::shown::{Shown, line};
use std::alloc::Global;
use std::io;
use std::io::Write;

// How many bytes are gathered before they are written.
const BLOCK: usize = 60_000;

// Standard output, and what is gathered for it.
#[derive(Drop)]
pub struct Printer<'a> {
    rt: &'a HostRuntime,
    pub out: Out,
}

impl<'a> Printer<'a> {
    pub fn new(rt: &'a HostRuntime) -> Printer<'a> {
        Printer {
            rt,
            out: Out::new(rt.alloc()),
        }
    }

    pub fn alloc(&self) -> Global {
        self.rt.alloc()
    }

    // Writes what was gathered.
    pub fn flush(&mut self) -> io::Result<()> {
        self.rt.stdout().write_all(self.out.as_slice())?;
        self.out.clear();
        Ok(())
    }

    // Prints the line of each call, numbered from 1.
    pub fn lines<A: Shown>(&mut self, texts: &[&[u8]], answers: &[A]) -> io::Result<()> {
        for (number, (text, answer)) in (1u64..).zip(texts.iter().zip(answers)) {
            line(&mut self.out, number, text, answer)?;
            if self.out.as_slice().len() >= BLOCK {
                self.flush()?;
            }
        }
        Ok(())
    }
}
