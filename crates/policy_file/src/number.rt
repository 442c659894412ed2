// A whole number as a field of a record.
ghost use Rattle.std.specs.Prelude.{◌≡◌, ◌≢◌, ℕ, ℤ, pos, neg_ℤ, ◌<◌, ◌≤◌, ◌-◌, ◌^◌, ◌∷◌, false, length, slice_index, IfSome, Some, if◌then◌else◌};
ghost use Rattle.std.specs.Int.{IsInRange};
ghost use Rattle.std.specs.Option.{SomeIff};
ghost use Rattle.std.specs.Str.Parse.{AllDigits, digits_value};
ghost use Rattle.policy_file.specs.NumberField.{IsDigitsField, IsNumberField};

/// The number that a field holds: one to nineteen digits, leading zeros among them, behind a minus or none, between any number of
/// spaces. None where the bytes are something else, a tab included, or the number is above 9223372036854775807 in absolute value.
pub fn number_field(field: &[u8]) -> Option<i128>
    ensures found { IfSome result (IsNumberField field.now) }
    ensures only { (z : ℤ) → IsNumberField field.now z → result ≡ Some z }
{
    let (minus, text) = without_minus(&field[spaces_before(field)..]);
    let Some(size) = digits_field(text) else {
        return None;
    };
    Some(signed(minus, size))
}

// The number with its sign.
fn signed(minus: bool, size: u64) -> i128
    ensures { result ≡ (if minus then neg_ℤ (pos size) else pos size) }
{
    let size = i128::from(size);
    if minus { -size } else { size }
}

// Whether the bytes begin with a minus, and those after it.
fn without_minus(text: &[u8]) -> (bool, &[u8])
    ensures split { text.now ≡ (if result.0 then 45 ∷ result.1.now else result.1.now) }
    ensures plain { result.0 ≡ false → slice_index text.now 0 ≢ 45 }
{
    match text {
        [b'-', rest @ ..] => (true, rest),
        _ => (false, text),
    }
}

// The number that digits hold before the spaces at the end.
fn digits_field(text: &[u8]) -> Option<u64>
    ensures found { IfSome result (IsDigitsField text.now) }
    ensures only { (n : ℕ) → IsDigitsField text.now n → result ≡ Some n }
{
    let count = digits_before(text);
    let rest = &text[count..];
    if count > 19 || spaces_before(rest) < rest.len() {
        return None;
    }
    value_of(&text[..count])
}

// What digits are worth, where there are some and it is below 2^63.
fn value_of(digits: &[u8]) -> Option<u64>
    requires { AllDigits 10 digits.now }
    ensures { SomeIff result ((1 ≤ length digits.now) × (digits_value 10 digits.now ≤ 2 ^ 63 - 1)) (digits_value 10 digits.now) }
{
    let Ok(text) = str::from_utf8(digits) else {
        return None;
    };
    match text.parse::<u64>() {
        Ok(value) if value < 1 << 63 => Some(value),
        _ => None,
    }
}

// How many digits the bytes begin with.
fn digits_before(bytes: &[u8]) -> usize
    ensures within { result ≤ length bytes.now }
    ensures digits { (k : ℕ) → k < result → IsInRange 48 57 (slice_index bytes.now k) }
    ensures end { result < length bytes.now → IsInRange 48 57 (slice_index bytes.now result) → ⊥ }
{
    for (i, b) in bytes.iter().enumerate() {
        if !b.is_ascii_digit() {
            return i;
        }
    }
    bytes.len()
}

// How many spaces they begin with.
fn spaces_before(bytes: &[u8]) -> usize
    ensures within { result ≤ length bytes.now }
    ensures spaces { (k : ℕ) → k < result → slice_index bytes.now k ≡ 32 }
    ensures end { result < length bytes.now → slice_index bytes.now result ≢ 32 }
{
    for (i, b) in bytes.iter().enumerate() {
        if *b != b' ' {
            return i;
        }
    }
    bytes.len()
}
