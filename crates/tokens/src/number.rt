// Reads a word of a sheet as a number.
ghost use Rattle.std.specs.Prelude.{◌≡◌, ℕ, ◌+◌, ◌*◌, ◌^◌, ◌<◌, ◌≤◌, Some, decimal};
ghost use Rattle.tokens.specs.Numbers.{reading_of, number_of};

// The number with one more digit behind it.
fn one_more(value: u128, base: u32, digit: u32) -> u128
    requires { (value < 2 ^ 64) × ((digit < base) × (base ≤ 36)) }
    ensures { result ≡ value * base + digit }
{
    value * u128::from(base) + u128::from(digit)
}

// The number that the digits of `word` write in a base, none where a byte is no digit, where there is no byte,
// or where the number is above `most`.
pub(crate) fn reading(word: &[u8], base: u32, most: u64) -> Option<u64>
    requires { (2 ≤ base) × (base ≤ 36) }
    ensures { result ≡ reading_of base most word.now }
{
    if word.is_empty() {
        return None;
    }
    let limit = u128::from(most);
    let mut value: u128 = 0;
    for b in word {
        let digit = char::from(*b).to_digit(base)?;
        value = one_more(value, base, digit);
        // More digits only make it larger.
        if value > limit {
            return None;
        }
    }
    Some(value as u64)
}

// The number that the decimal digits of `word` write, as `reading` has it. It is short, and wants no wide numbers on the way.
fn decimal_reading(word: &[u8], most: u32) -> Option<u32>
    ensures { result ≡ number_of word.now most }
{
    if word.is_empty() {
        return None;
    }
    let limit = u64::from(most);
    let mut value: u64 = 0;
    for b in word {
        let digit = char::from(*b).to_digit(10)?;
        value = value * 10 + u64::from(digit);
        if value > limit {
            return None;
        }
    }
    Some(value as u32)
}

// A decimal number up to `most`; as `{}` writes such a number, it is read back.
#[tactic(auto, using(crate::proofs::Writings::number_back))]
pub fn number(word: &[u8], most: u32) -> Option<u32>
    ensures is { result ≡ number_of word.now most }
    ensures back { (n : ℕ) → n ≤ most → word.now ≡ decimal n → result ≡ Some n }
{
    decimal_reading(word, most)
}
