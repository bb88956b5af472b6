// Reading a decimal number.
ghost use Rattle.std.specs.Prelude.{◌≡◌, ◌≤◌, cond, length, Some, None};
ghost use Rattle.std.specs.Str.{all_ascii_digits};
ghost use Rattle.std.specs.Str.Parse.{digits_value};
ghost use Rattle.text.specs.Decimal.{spelled, leading_zero};

// The number that `digits` spell: at least one digit, at most `most` and never more than 16, and no 0 before others.
pub fn read_number(most: usize, digits: &[u8]) -> Option<u64>
    ensures { result ≡ spelled most digits.now }
{
    if digits.is_empty() || digits.len() > most.min(16) || has_leading_zero(digits) {
        return None;
    }
    value(digits)
}

fn has_leading_zero(digits: &[u8]) -> bool
    ensures { result ≡ leading_zero digits.now }
{
    matches!(digits, [b'0', _, ..])
}

// The number itself, where each byte is a digit. Sixteen digits fit 64 bits, so nothing wraps. (The library's `parse` takes
// three times as long: it wants a `str`, and would take a sign.)
fn value(digits: &[u8]) -> Option<u64>
    ensures { length digits.now ≤ 16 → result ≡ cond (all_ascii_digits digits.now) (Some (digits_value 10 digits.now)) None }
{
    digits.iter().try_fold(0, |n: u64, d| {
        if !d.is_ascii_digit() {
            return None;
        }
        Some(n.wrapping_mul(10).wrapping_add(u64::from(*d - b'0')))
    })
}
