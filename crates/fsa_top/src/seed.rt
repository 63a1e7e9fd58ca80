//! The seed that the words `gen N` name.

ghost use Rattle.std.specs.Prelude.{◌≡◌, ◌+◌, ◌*◌, ◌&&◌, nat_lt, nat_le, Some, None, if◌then◌else◌};
ghost use Rattle.fsa_model.specs.Numbers.{digit_of, number_after};
ghost use Rattle.fsa_top.specs.Words.{seed_of, seed_written};

// The number with one decimal digit more, where the byte is one and the number is below 2^64.
fn with_digit(n: u64, byte: u8) -> Option<u64>
    ensures { result ≡ (if nat_lt (digit_of byte) 10 && nat_le (n * 10 + digit_of byte) 18446744073709551615
        then Some (n * 10 + digit_of byte) else None) }
{
    match byte {
        b'0'..=b'9' => match n.checked_mul(10) {
            Some(shifted) => shifted.checked_add(u64::from(byte - b'0')),
            None => None,
        },
        _ => None,
    }
}

// The number below 2^64 that these digits write; there is one at least.
fn number_after(digits: &[u8]) -> Option<u64>
    ensures { result ≡ number_after 10 18446744073709551615 0 digits.now }
{
    let mut n = 0;
    for byte in digits {
        n = with_digit(n, *byte)?;
    }
    Some(n)
}

// The decimal number below 2^64 that these bytes write without a leading zero.
fn seed_written(bytes: &[u8]) -> Option<u64>
    ensures { result ≡ seed_written bytes.now }
{
    match bytes {
        [] => None,
        [b'0', _, ..] => None,
        _ => number_after(bytes),
    }
}

/// The seed where the words are `gen N`, with a decimal number below 2^64 that has no leading zero;
/// `None` exactly for all other words. It takes no memory.
pub fn seed_of(words: &[String]) -> Option<u64>
    ensures { result ≡ seed_of words.now }
{
    match words {
        [word, number] if word.as_bytes() == b"gen".as_slice() => seed_written(number.as_bytes()),
        _ => None,
    }
}
