// Numbers in decimal digits.
ghost use Rattle.std.specs.Prelude.{◌≡◌, ◌-◌, ◌≤◌, true, false, MatchOption};
ghost use Rattle.units.specs.Text.{is_digit, number_up_to, begins_number as begins};

fn digit(byte: u8) -> Option<u32>
    ensures { MatchOption result (is_digit byte ≡ false)
        (λ digit. (is_digit byte ≡ true) × (digit ≡ byte - 48) × (digit ≤ 9)) }
{
    match byte {
        b'0'..=b'9' => Some(u32::from(byte - b'0')),
        _ => None,
    }
}

fn begins_number(item: &[u8]) -> bool
    ensures { result ≡ begins item.now }
{
    match item {
        [] => false,
        [_] => true,
        [first, ..] => *first != b'0',
    }
}

/// Reads a number: `0`, or decimal digits that begin with another digit than `0`. The value is at most `greatest`.
pub fn number(item: &[u8], greatest: u32) -> Option<u32>
    requires { greatest ≤ 65535 }
    ensures { result ≡ number_up_to greatest item.now }
{
    if !begins_number(item) {
        return None;
    }
    let mut value = 0;
    for byte in item {
        match digit(*byte) {
            None => return None,
            Some(digit) => value = value * 10 + digit,
        }
        if value > greatest {
            return None;
        }
    }
    Some(value)
}
