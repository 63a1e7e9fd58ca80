//! Bytes as hexadecimal digits.

ghost use Rattle.std.specs.Prelude.{◌≡◌, ◌<◌, ◌*◌, length};
ghost use Rattle.fsa_model.specs.Numbers.{glyph};
ghost use Rattle.fsa_model.specs.Text.{hex_digits};

/// The digit of a number below 16, in lower case.
pub fn digit(n: u8) -> u8
    requires { n < 16 }
    ensures { result ≡ glyph n }
{
    if n < 10 { 48 + n } else { 87 + n }
}

/// Writes two digits for each byte over others, of which there are as many.
pub fn write_digits(bytes: &[u8], digits: &mut [u8])
    requires { length digits.old ≡ 2 * length bytes.now }
    ensures { digits.new ≡ hex_digits bytes.now }
{
    'bytes: for i in 0..bytes.len() {
        let byte = bytes[i];
        digits[2 * i] = digit(byte / 16);
        digits[2 * i + 1] = digit(byte % 16);
    }
}
