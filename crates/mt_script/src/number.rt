ghost use Rattle.std.specs.Prelude.{◌≡◌, ◌^◌, ◌<◌, ℕ, decimal, IfSome};

use itoa::Buffer;
use std::str::from_utf8;

/// The number below 2 ^ 64 that these bytes spell in decimal, with no sign and no leading zero.
/// `None` where they spell none.
pub fn read_number(digits: &[u8]) -> Option<u64>
    ensures found { IfSome result (λ n. digits.now ≡ decimal n) }
    ensures taken { (n : ℕ) → n < 2 ^ 64 → digits.now ≡ decimal n → result ≡ Some n }
{
    let number = parse(digits)?;
    let mut buffer = Buffer::new();
    if buffer.format(number).as_bytes() != digits {
        return None;
    }
    Some(number)
}

// The number that these bytes spell; a sign or zeros in front may pass.
fn parse(digits: &[u8]) -> Option<u64>
    ensures { (n : ℕ) → n < 2 ^ 64 → digits.now ≡ decimal n → result ≡ Some n }
{
    match from_utf8(digits) {
        Ok(text) => text.parse().ok(),
        Err(_) => None,
    }
}
