// Numbers as text (RFC 2616, sections 2.2 and 3.6.1).
ghost use Rattle.std.specs.Prelude.{◌≡◌, ◌≤◌};
ghost use Rattle.pp_text.specs.Numbers.{number_in, number_of, hex_number_of};

/// The number that the text is, `1*DIGIT`: None where it is empty, has a byte that is no digit, or
/// is above `u64::MAX`.
pub fn read_u64(text: &[u8]) -> Option<u64>
    ensures { result ≡ number_of text.now }
{
    read_number(text, 10)
}

/// The number that the text is, `1*HEX`, its digits in either case: None as for `read_u64`.
pub fn read_hex(text: &[u8]) -> Option<u64>
    ensures { result ≡ hex_number_of text.now }
{
    read_number(text, 16)
}

fn read_number(text: &[u8], base: u32) -> Option<u64>
    requires least { 2 ≤ base }
    requires most { base ≤ 36 }
    ensures { result ≡ number_in base text.now }
{
    if text.is_empty() {
        return None;
    }
    let mut number: u64 = 0;
    for byte in text {
        let digit = (*byte as char).to_digit(base)?;
        number = number
            .checked_mul(u64::from(base))?
            .checked_add(u64::from(digit))?;
    }
    Some(number)
}
