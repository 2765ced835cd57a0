ghost use Rattle.std.specs.Prelude.{◌≡◌, ℕ, ◌+◌, ◌-◌, ◌*◌, ◌^◌, ◌<◌, ◌≤◌, min, ◌∷◌, length, MatchOption, MatchResult};
ghost use Rattle.word.specs.declared.fault.WordFault.TheVariants.{NotANumber};
ghost use Rattle.word.specs.Numbers.{Digits, value, ReadsNumber, NumberFault};

use super::byte::Kind;
use super::fault::WordFault;

/// The number that a word spells: a single `0`, or a digit `1` to `9` with further digits, at most 4,294,967,295. All bytes are
/// judged before the size.
// Kept: the patterns for no byte, a single `0`, and a first byte with the rest are the form that is prescribed for a number.
pub fn number(word: &[u8]) -> Result<u32, WordFault>
    ensures { MatchResult result (λ n. ReadsNumber word.now n) (λ e. NumberFault word.now e) }
{
    match word {
        [] => Err(WordFault::Empty),
        [b'0'] => Ok(0),
        [first, rest @ ..] => {
            let Kind::Digit(lead @ 1..) = Kind::from(*first) else {
                return Err(WordFault::NotANumber);
            };
            let n = digits(lead, rest)?;
            u32::try_from(n).or(Err(WordFault::TooLarge))
        }
    }
}

/// The number that the digit `lead` and the digits `rest` write, or 2^32 where it is larger than that; refused where a byte is no
/// digit.
fn digits(lead: u8, rest: &[u8]) -> Result<u64, WordFault>
    requires { lead < 10 }
    ensures { MatchResult result (λ n. Digits rest.now × (n ≡ min (value ((48 + lead) ∷ rest.now)) (2 ^ 32))) (λ e. (e ≡ NotANumber) × (Digits rest.now → ⊥)) }
{
    let mut n = u64::from(lead);
    for byte in rest {
        let Kind::Digit(digit) = Kind::from(*byte) else {
            return Err(WordFault::NotANumber);
        };
        n = (n * 10 + u64::from(digit)).min(1 << 32);
    }
    Ok(n)
}
