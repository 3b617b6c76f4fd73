//! What stands at the front of a text: spaces, a byte, a number.
ghost use Rattle.std.specs.Prelude.{◌≡◌, ◌≤◌, ◌+◌, ◌*◌, ◌-◌, ◌^◌, ◌<◌, min, length};
ghost use Rattle.std.specs.List.{prefix_len};
ghost use Rattle.std.specs.Option.{option_map};
ghost use Rattle.shape_text_forms.specs.Scan.{is_of, without_spaces, after_first, after_byte, with_digit, digits_value, signed_text, is_minus};
ghost use Rattle.shape_text_forms.specs.Scan.{number_value, number_of};

/// The kinds of bytes that stand in a row.
#[derive(Clone, Copy)]
pub enum Kind {
    /// A space, a tab, or an end of a line or page.
    Space,
    Digit,
    /// A letter of ASCII.
    Letter,
    /// A byte of a tag that ends at this quote, or at a byte 0 if there is none.
    Tag(u8),
}

/// Whether the byte is of the kind.
fn is(kind: Kind, byte: u8) -> bool
    ensures { result ≡ is_of kind byte }
{
    match kind {
        Kind::Space => byte == b' ' || b'\t' <= byte && byte <= b'\r',
        Kind::Digit => b'0' <= byte && byte <= b'9',
        Kind::Letter => b'a' <= byte && byte <= b'z' || b'A' <= byte && byte <= b'Z',
        Kind::Tag(quote) => byte != b' ' && byte != b'=' && byte != b'[' && byte != quote,
    }
}

/// How many bytes at the front of the text are of the kind.
pub fn count(text: &[u8], kind: Kind) -> usize
    ensures value { result ≡ prefix_len (is_of kind) text.now }
    ensures within { result ≤ length text.now }
{
    text.iter().take_while(|byte| is(kind, **byte)).count()
}

/// The text without the spaces at its front.
pub fn skip_spaces(text: &[u8]) -> &[u8]
    ensures { result.now ≡ without_spaces text.now }
{
    &text[count(text, Kind::Space)..]
}

/// The text after its first byte, if it is this one.
pub fn skip_first(text: &[u8], byte: u8) -> Option<&[u8]>
    ensures { option_map (λ t. t.now) result ≡ after_first byte text.now }
{
    match text {
        [first, rest @ ..] if *first == byte => Some(rest),
        _ => None,
    }
}

/// The text after this byte, if it is the first one that is no space.
pub fn skip_byte(text: &[u8], byte: u8) -> Option<&[u8]>
    ensures { option_map (λ t. t.now) result ≡ after_byte byte text.now }
{
    skip_first(skip_spaces(text), byte)
}

/// The number that the digits write after what was read, counted up to the greatest one of 64 bits.
fn with_digit(number: u64, digit: u8) -> u64
    ensures { result ≡ with_digit number digit }
{
    number
        .saturating_mul(10)
        .saturating_add(u64::from(digit.saturating_sub(b'0')))
}

/// The number that digits write, counted up to the greatest one of 64 bits.
fn digits_value(digits: &[u8]) -> u64
    ensures { result ≡ digits_value digits.now }
{
    digits
        .iter()
        .fold(0, |number, digit| with_digit(number, *digit))
}

/// Whether a sign at the front is a minus, and the text after a sign.
fn skip_sign(text: &[u8]) -> (bool, &[u8])
    ensures minus { result.0 ≡ is_minus text.now }
    ensures rest { result.1.now ≡ signed_text text.now }
{
    match text {
        [b'-', rest @ ..] => (true, rest),
        [b'+', rest @ ..] => (false, rest),
        _ => (false, text),
    }
}

/// The number of 32 bits that a number of 64 bits and a sign stand for, modulo 2^32. None if the
/// number is too great for 64 bits with a sign.
fn number_value(minus: bool, number: u64) -> Option<u32>
    ensures { result ≡ number_value minus number }
{
    if 0x8000_0000_0000_0000 <= number {
        return None;
    }
    let low = (number % 0x1_0000_0000) as u32;
    if minus {
        Some(low.wrapping_neg())
    } else {
        Some(low)
    }
}

/// The number at the front of a text, after spaces and a sign, modulo 2^32, and the text after it.
/// None if no digit stands there, or if it is 2^63 or more.
pub fn number(text: &[u8]) -> Option<(u32, &[u8])>
    ensures { option_map (λ r. (r.0, r.1.now)) result ≡ number_of text.now }
{
    let (minus, digits) = skip_sign(skip_spaces(text));
    let count = count(digits, Kind::Digit);
    if count == 0 {
        return None;
    }
    match number_value(minus, digits_value(&digits[..count])) {
        Some(value) => Some((value, &digits[count..])),
        None => None,
    }
}
