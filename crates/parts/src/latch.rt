// How a part breaks.
ghost use Rattle.std.specs.Prelude.{◌≡◌, None};
ghost use Rattle.parts.specs.Outcomes.{unless_any, first_kept};

// The first fault of a part, if it has one. A part that has one is broken, and answers it to every call.
#[derive(Clone, Copy)]
pub struct Latch<F: Copy> {
    first: Option<F>,
}

impl<F: Copy> Latch<F> {
    pub fn new() -> Latch<F>
        ensures { result.first ≡ None }
    {
        Latch { first: None }
    }

    // The first fault, as what a call is answered.
    pub fn unbroken(&self) -> Result<(), F>
        ensures { result ≡ unless_any self.now.first }
    {
        self.first.map_or(Ok(()), Err)
    }

    // A fault breaks the part. Each call asks first whether the part is unbroken, so that the fault is its first.
    pub fn settle<A>(&mut self, outcome: Result<A, F>) -> Result<A, F>
        ensures answer { result ≡ outcome }
        ensures first { self.new.first ≡ first_kept self.old.first outcome }
    {
        if let Err(fault) = &outcome {
            self.first = Some(*fault);
        }
        outcome
    }

    // The first fault.
    pub fn fault(&self) -> Option<F>
        ensures { result ≡ self.now.first }
    {
        let Latch { first } = *self;
        first
    }
}
