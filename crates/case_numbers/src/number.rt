// Numbers by their digits.
ghost use Rattle.std.specs.Prelude.{◌≡◌, ◌≤◌, Some};
ghost use Rattle.case_numbers.specs.Numbers.{digit_of, base_of, with_digit, numeral, constant_in};

// A number with a digit put to it; none where the byte is no digit of the base or the number has more than 32 bits.
fn with_digit(value: u32, base: u32, byte: u8) -> Option<u32>
    requires { (2 ≤ base) × (base ≤ 16) }
    ensures { result ≡ with_digit base (Some value) (digit_of byte) }
{
    let digit = char::from(byte).to_digit(base)?;
    value.checked_mul(base)?.checked_add(digit)
}

// The number that a field's digits say. Whether they are hex is a bool, as the definition base_of takes it.
pub fn number_of(field: &[u8], hex: bool) -> Option<u32>
    ensures { result ≡ numeral (base_of hex) field.now }
{
    if field.is_empty() {
        return None;
    }
    let base = if hex { 16 } else { 10 };
    let mut value = 0;
    for byte in field {
        value = with_digit(value, base, *byte)?;
    }
    Some(value)
}

// A constant: in hex behind 0x, else decimal.
pub fn constant_of(field: &[u8]) -> Option<u32>
    ensures { result ≡ constant_in field.now }
{
    match field.strip_prefix(b"0x") {
        Some(digits) => number_of(digits, true),
        None => number_of(field, false),
    }
}
