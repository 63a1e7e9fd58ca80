//! Numbers in decimal and hexadecimal digits.

ghost use Rattle.std.specs.Prelude.{◌≡◌, ◌≤◌, ◌<◌, ◌+◌, ◌*◌, ◌&&◌, nat_lt, nat_le, IfSome, if◌then◌else◌};
ghost use Rattle.fsa_model.specs.Numbers.{digit_of, number_after, written_number};

/// The digit that a byte stands for, 16 where it is none.
pub fn digit_of(byte: u8) -> u8
    ensures digit { result ≡ digit_of byte }
    ensures small { result ≤ 16 }
{
    match byte {
        b'0'..=b'9' => byte - b'0',
        b'a'..=b'f' => byte - 87,
        _ => 16,
    }
}

// The number with one digit more, where the byte is a digit of the base and the number at most `most`.
fn with_digit(base: u64, most: u64, n: u64, byte: u8) -> Option<u64>
    ensures { result ≡ (if nat_lt (digit_of byte) base && nat_le (n * base + digit_of byte) most
        then Some (n * base + digit_of byte) else None) }
{
    let digit = u64::from(digit_of(byte));
    if digit >= base {
        return None;
    }
    match n.checked_mul(base) {
        Some(shifted) => match shifted.checked_add(digit) {
            Some(next) if next <= most => Some(next),
            _ => None,
        },
        None => None,
    }
}

// The number that these digits write; there is one at least.
fn number_after(base: u64, most: u64, digits: &[u8]) -> Option<u64>
    ensures number { result ≡ number_after base most 0 digits.now }
    ensures most { IfSome result (λ n. n ≤ most) }
{
    let mut n = 0;
    for byte in digits {
        n = with_digit(base, most, n, *byte)?;
    }
    Some(n)
}

/// The number, `most` at most, that these bytes write in this base without a leading zero; `None`
/// exactly where they write none.
pub fn written_number(base: u64, most: u64, bytes: &[u8]) -> Option<u64>
    ensures number { result ≡ written_number base most bytes.now }
    ensures most { IfSome result (λ n. n ≤ most) }
{
    match bytes {
        [] => None,
        [b'0', _, ..] => None,
        _ => number_after(base, most, bytes),
    }
}
