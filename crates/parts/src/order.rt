// What an order of keys is.
ghost use Rattle.std.specs.Prelude.{◌≡◌, ℕ, Bool};
ghost use Rattle.parts.specs.Orders.{OrderLaws};

pub trait Order {
    // Whether one key is before another. This belongs to the type and not to a value, so that no queue can change it.
    ghost before: { ℕ → ℕ → Bool };

    fn is_before(&self, one: u64, other: u64) -> bool
        ensures { result ≡ before one other };

    ghost laws: { OrderLaws before };
}
