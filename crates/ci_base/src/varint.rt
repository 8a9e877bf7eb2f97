// Varints: seven bits a byte, the least first. Every byte but the last has its top bit set, and the
// last isn't 0 unless it is the only one. 0 is 00, 13 is 0d, 300 is ac 02.
ghost use Rattle.std.specs.Prelude.{◌≡◌, ◌^◌, ◌<◌, ◌≤◌, ◌++◌, ℕ, List, IfNone, IfSome, OnErr, OnOk, length, take};
ghost use Rattle.ci_base.specs.Varint.{BeginsWithVarint, NoGroups, groups, varint};

use crate::OutOfMemory;

/// The bytes before the last one that a number of 64 bits may have: 63 of its bits.
const MORE: usize = 9;

/// Appends the spelling of the value.
pub fn put_varint(out: &mut Vec<u8>, value: u64) -> Result<(), OutOfMemory>
    ensures ok { OnOk result (out.new.items ≡ out.old.items ++ varint value) }
    ensures err { OnErr result (out.new.items ≡ out.old.items) }
{
    let mut bytes = [0u8; MORE + 1];
    let count = spell(value, &mut bytes);
    out.extend_from_slice(&bytes[..count])?;
    Ok(())
}

/// The value whose spelling begins the bytes, and the length of that spelling. A last byte of 0
/// behind others would be a second spelling, and isn't read; nor is a value over 64 bits.
pub fn get_varint(bytes: &[u8]) -> Option<(u64, usize)>
    ensures value { IfSome result (λ found. BeginsWithVarint bytes.now found.0) }
    ensures length { IfSome result (λ found. found.1 ≡ length (varint found.0)) }
    ensures none { IfNone result ((number : ℕ) → ¬ BeginsWithVarint bytes.now number) }
{
    read_groups(bytes, MORE)
}

/// No spelling begins another, and none is that of two values. A call does nothing: the contract is
/// what it is for.
pub fn varint_law()
    ensures { (a b : ℕ) (rest more : List ℕ) → varint a ++ rest ≡ varint b ++ more → a ≡ b }
{}

// Writes the spelling to the front of the bytes, and answers its length.
fn spell(value: u64, bytes: &mut [u8]) -> usize
    requires { length bytes.old ≡ 10 }
    ensures spelled { take result bytes.new ≡ varint value }
    ensures count { result ≤ 10 }
{
    let mut rest = value;
    for place in 0..MORE {
        if rest < 128 {
            bytes[place] = rest as u8;
            return place + 1;
        }
        bytes[place] = (rest % 128) as u8 + 128;
        rest /= 128;
    }
    bytes[MORE] = rest as u8;
    MORE + 1
}

// Reads groups of seven bits, at most `more` before the last one. The last that may be is taken as
// it is: where it has more than the number's last bit, the number is over 64 bits in the end.
fn read_groups(bytes: &[u8], more: usize) -> Option<(u64, usize)>
    ensures value { IfSome result (λ found. take found.1 bytes.now ≡ groups more found.0) }
    ensures small { IfSome result (λ found. found.0 < 2 ^ 64) }
    ensures length { IfSome result (λ found. found.1 ≡ length (groups more found.0)) }
    ensures none { IfNone result (NoGroups more bytes.now) }
{
    let (first, rest) = bytes.split_first()?;
    if *first < 128 || more == 0 {
        return Some((u64::from(*first), 1));
    }
    let (high, count) = read_groups(rest, more - 1)?;
    if high == 0 {
        return None;
    }
    let shifted = high.checked_mul(128)?;
    Some((shifted + u64::from(*first % 128), count + 1))
}
