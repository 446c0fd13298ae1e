// Numbers as digits (docs/FORMATS.md, "Numbers in texts").
ghost use Rattle.std.specs.Prelude.{◌≡◌, ◌^◌, ◌<◌, ◌≤◌, length, IfSome};
ghost use Rattle.faim_base.specs.Digits.{read_number, padded};

/// The number that the digits spell. None exactly where the text is empty or has a byte that isn't a digit.
pub fn digits(text: &[u8]) -> Option<u64>
    requires { length text.now ≤ 18 }
    ensures value { result ≡ read_number text.now }
    ensures small { IfSome result (λ n. n < 10 ^ length text.now) }
{
    if text.is_empty() {
        return None;
    }
    let mut n = 0;
    for b in text {
        if !b.is_ascii_digit() {
            return None;
        }
        n = 10 * n + u64::from(*b - b'0');
    }
    Some(n)
}

/// Writes n in digits, with zeros before it.
pub fn padded(n: u64, text: &mut [u8])
    requires room { length text.old ≤ 18 }
    requires fits { n < 10 ^ length text.old }
    ensures { text.new ≡ padded (length text.old) n }
{
    let mut left = n;
    for i in (0..text.len()).rev() {
        text[i] = b'0' + (left % 10) as u8;
        left /= 10;
    }
}
