// Numbers in a script.
ghost use Rattle.std.specs.Prelude.{◌≡◌, ◌≤◌};
ghost use Rattle.words.specs.Numerals.{numbered, number_of, key_of};

use super::reason::Reason;

// The number that the word writes in the radix.
fn numeral(word: &[u8], radix: u32) -> Option<u64>
    requires least { 2 ≤ radix }
    requires most { radix ≤ 36 }
    ensures { result ≡ numbered radix word.now }
{
    if word.is_empty() {
        return None;
    }
    let mut n: u64 = 0;
    for byte in word {
        let digit = char::from(*byte).to_digit(radix)?;
        n = n
            .checked_mul(u64::from(radix))?
            .checked_add(u64::from(digit))?;
    }
    Some(n)
}

// A decimal number of 64 bits.
pub fn decimal(word: &[u8]) -> Result<u64, Reason>
    ensures { result ≡ number_of word.now }
{
    numeral(word, 10).ok_or(Reason::NotANumber)
}

// A key: 1 to 16 hexadecimal digits.
pub fn key(word: &[u8]) -> Result<u64, Reason>
    ensures { result ≡ key_of word.now }
{
    if word.len() <= 16 {
        numeral(word, 16).ok_or(Reason::NotAKey)
    } else {
        Err(Reason::NotAKey)
    }
}
