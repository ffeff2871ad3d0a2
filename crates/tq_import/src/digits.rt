// Numbers that are read digit by digit, up to a limit.

ghost use Rattle.std.specs.Prelude.{◌≡◌, ◌≤◌, ◌==◌, ◌∷◌, [], IfSome, filter, not};
ghost use Rattle.tq_import.specs.Amounts.{with_zeros};
ghost use Rattle.tq_import.specs.Digits.{natural_after};

// The number with one more digit. `None` if the byte is not a digit or the number is above the limit.
fn next_digit(number: u64, byte: u8, limit: u64) -> Option<u64>
    ensures value { result ≡ natural_after limit number (byte ∷ []) }
    ensures small { IfSome result (λ next. next ≤ limit) }
{
    if !byte.is_ascii_digit() {
        return None;
    }
    let tens = number.checked_mul(10)?;
    let next = tens.checked_add(u64::from(byte - b'0'))?;
    if next > limit {
        return None;
    }
    Some(next)
}

/// The number with these digits appended. `None` if a byte is not a digit or the number is above the limit.
pub fn add_digits(number: u64, digits: &[u8], limit: u64) -> Option<u64>
    requires { number ≤ limit }
    ensures value { result ≡ natural_after limit number digits.now }
    ensures small { IfSome result (λ sum. sum ≤ limit) }
{
    let mut sum = number;
    'digits: for byte in digits {
        sum = next_digit(sum, *byte, limit)?;
    }
    Some(sum)
}

// The number with one more digit, unless the byte is the mark.
fn next_unmarked(number: u64, mark: u8, byte: u8, limit: u64) -> Option<u64>
    requires { number ≤ limit }
    ensures value { result ≡ natural_after limit number (filter (λ b. not (b == mark)) (byte ∷ [])) }
    ensures small { IfSome result (λ next. next ≤ limit) }
{
    if byte == mark {
        return Some(number);
    }
    next_digit(number, byte, limit)
}

/// The number with these digits appended; the marks between them are skipped. `None` if another byte is not a digit or
/// the number is above the limit.
pub fn add_unmarked(number: u64, mark: u8, digits: &[u8], limit: u64) -> Option<u64>
    requires { number ≤ limit }
    ensures value { result ≡ natural_after limit number (filter (λ b. not (b == mark)) digits.now) }
    ensures small { IfSome result (λ sum. sum ≤ limit) }
{
    let mut sum = number;
    'digits: for byte in digits {
        sum = next_unmarked(sum, mark, *byte, limit)?;
    }
    Some(sum)
}

/// The number with this many zeros appended. `None` if it is above the limit.
pub fn add_zeros(number: u64, count: usize, limit: u64) -> Option<u64>
    requires { number ≤ limit }
    ensures value { result ≡ natural_after limit number (with_zeros count []) }
    ensures small { IfSome result (λ sum. sum ≤ limit) }
{
    let mut sum = number;
    let mut left = count;
    'zeros: while left > 0 {
        sum = next_digit(sum, b'0', limit)?;
        left -= 1;
    }
    Some(sum)
}
