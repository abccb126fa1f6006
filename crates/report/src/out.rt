// Text at the end of a buffer of bytes.
ghost use Rattle.std.specs.Prelude.{◌≡◌, ℕ, List, [], ◌++◌, decimal, OnOk};
ghost use Rattle.std.specs.Fmt.{AppendsText};

use std::alloc::{AllocError, Global};
use std::fmt;
use std::marker::Model;

// What is printed, until it is written: bytes, since a call of a script need not be text.
#[derive(Drop)]
pub struct Out {
    bytes: Vec<u8>,
}

// A clause sees the bytes written so far.
impl Model for Out {
    ghost Value = { List ℕ };

    ghost view = { λ out. out.bytes.items };
}

impl fmt::Write for Out {
    ghost write_str_gives = { λ before text after. after ≡ before ++ text };

    fn write_str(&mut self, text: &str) -> fmt::Result {
        Ok(self.raw(text.as_bytes())?)
    }
}

impl Out {
    pub fn new(heap: Global) -> Out
        ensures { result ≡ [] }
    {
        Out {
            bytes: Vec::new(heap),
        }
    }

    pub fn as_slice(&self) -> &[u8]
        ensures { result.now ≡ self.now }
    {
        self.bytes.as_slice()
    }

    pub fn clear(&mut self)
        ensures { self.new ≡ [] }
    {
        self.bytes.clear();
    }

    pub fn raw(&mut self, bytes: &[u8]) -> Result<(), AllocError>
        ensures { OnOk result (self.new ≡ self.old ++ bytes.now) }
    {
        self.bytes.extend_from_slice(bytes)
    }

    // The number in decimal. What a line begins with is written so, and not by `write!`, which took the whole program a twentieth longer.
    pub fn number(&mut self, n: u64) -> Result<(), AllocError>
        ensures { OnOk result (self.new ≡ self.old ++ decimal n) }
    {
        self.raw(itoa::Buffer::new().format(n).as_bytes())
    }

    // What `write!` calls. No value that is printed here fails by itself, so an error is the buffer's.
    pub fn write_fmt<D: fmt::Display + Drop>(&mut self, value: D) -> Result<(), AllocError>
        ensures { OnOk result (AppendsText self.old self.new (D.output value)) }
    {
        fmt::Write::write(self, value).map_err(|_| AllocError)
    }
}
