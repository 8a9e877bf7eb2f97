ghost use Rattle.std.specs.Prelude.{◌≡◌, ◌≤◌, true, length};
ghost use Rattle.std.specs.List.{list_all};
ghost use Rattle.ci_journal.specs.Requests.{is_digit, is_short_number, load_of, load_request, number_in};

use crate::Request;

/// Reads what stands behind `load`: a seed, one space, and how many documents.
pub(crate) fn read_load(argument: &str) -> Request
    ensures { result ≡ load_request argument.now }
{
    match argument.split_once(' ') {
        Some((seed, count)) => load_of(seed.as_bytes(), count.as_bytes()),
        None => Request::Bad,
    }
}

fn load_of(seed: &[u8], count: &[u8]) -> Request
    ensures { result ≡ load_of seed.now count.now }
{
    if !is_short_number(seed) || !is_short_number(count) {
        return Request::Bad;
    }
    let (seed, count) = (number_in(seed), number_in(count));
    if seed > 65_535 || count < 1 || count > 65_536 {
        return Request::Bad;
    }
    Request::Load {
        seed: u64::from(seed),
        count,
    }
}

// From one to five decimal digits.
fn is_short_number(text: &[u8]) -> bool
    ensures { result ≡ is_short_number text.now }
{
    1 <= text.len() && text.len() <= 5 && are_digits(text)
}

fn are_digits(text: &[u8]) -> bool
    ensures { result ≡ list_all is_digit text.now }
{
    for byte in text {
        if !is_digit(*byte) {
            return false;
        }
    }
    true
}

fn is_digit(byte: u8) -> bool
    ensures { result ≡ is_digit byte }
{
    b'0' <= byte && byte <= b'9'
}

fn number_in(digits: &[u8]) -> u32
    requires short { length digits.now ≤ 5 }
    requires digits { list_all is_digit digits.now ≡ true }
    ensures { result ≡ number_in digits.now }
{
    let mut number: u32 = 0;
    for digit in digits {
        number = number * 10 + u32::from(digit - b'0');
    }
    number
}
