// Numbers in decimal.
ghost use Rattle.std.specs.Prelude.{◌≡◌, ◌<◌, ◌^◌, ℕ, Some, IfSome, decimal};

use itoa::Buffer;

/// The number whose shortest decimal the text is: no sign, no leading zero, and at most 2^64 - 1. This is the only form of
/// a number that the formats take.
pub fn decimal_number(text: &str) -> Option<u64>
    ensures shortest { IfSome result (λ n. (n < 2 ^ 64) × (text.now ≡ decimal n)) }
    ensures all { (n : ℕ) → n < 2 ^ 64 → text.now ≡ decimal n → result ≡ Some n }
{
    let number = text.parse::<u64>().ok()?;
    let mut digits = Buffer::new();
    if digits.format(number) == text {
        Some(number)
    } else {
        None
    }
}
