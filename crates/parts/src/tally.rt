// What a tally is: a value that sums up a bag of record numbers.
ghost use Rattle.std.specs.Prelude.{◌≡◌};
ghost use Rattle.parts.specs.Tallying.{Tallying, Laws};

pub trait Tally {
    type Value: Copy;

    // The value of the empty bag, how a record is added, and the test whether two values are one.
    ghost tallying: { Self → Tallying Self.Value };

    ghost laws: { (t : Self) → Laws (tallying t) };

    fn start(&self) -> Self::Value
        ensures { result ≡ (tallying self.now).start };

    fn add(&self, value: Self::Value, record: u64) -> Self::Value
        ensures { result ≡ (tallying self.now).add value «record» };

    fn same(&self, one: Self::Value, other: Self::Value) -> bool
        ensures { result ≡ (tallying self.now).same one other };
}
