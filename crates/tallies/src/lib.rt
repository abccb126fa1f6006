// The two tallies, over a mix of the record under a key. Both are impls of `Tally`, the trait that has the laws, and differ in one
// operation. A struct over the operation is no plainer: it takes a second trait with the laws again, a type for each operation, and
// a field for that type in every literal `Sum { key }`, in place of two bodies of a line.
#![tactic(auto)]

ghost use Rattle.std.specs.Prelude.{◌≡◌};
ghost use Rattle.memory_laws.specs.Mix.{mix};

mod by_sum;
mod by_xor;

pub use by_sum::Sum;
pub use by_xor::Xor;

const MULTIPLIER: u64 = 0x9E37_79B9_7F4A_7C15;

pub fn mix(key: u64, record: u64) -> u64
    ensures { result ≡ mix key «record» }
{
    let y = (record ^ key).wrapping_mul(MULTIPLIER);
    (y ^ (y >> 32)).wrapping_mul(MULTIPLIER)
}
