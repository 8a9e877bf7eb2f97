ghost use Rattle.std.specs.Prelude.{◌≡◌, Some, None, IfSome, MatchOption, length};
ghost use Rattle.ci_front.specs.Front.{bytes_at, i64_at, number_at, sized_at, u32_at};

use ci_base::get_varint;

/// The number whose varint stands at the front, and the bytes behind it.
pub fn number_front(bytes: &[u8]) -> Option<(u64, &[u8])>
    ensures { MatchOption result (number_at bytes.now ≡ None)
        (λ found. number_at bytes.now ≡ Some (found.0, found.1.now)) }
{
    match get_varint(bytes) {
        None => None,
        Some((number, count)) => {
            let (_, rest) = bytes.split_at(count);
            Some((number, rest))
        }
    }
}

/// So many bytes, and those behind them.
#[tactic(auto, unfolding(crate::specs::Front::bytes_at))]
pub fn bytes_front(bytes: &[u8], count: u64) -> Option<(&[u8], &[u8])>
    ensures parts { MatchOption result (bytes_at count bytes.now ≡ None)
        (λ found. bytes_at count bytes.now ≡ Some (found.0.now, found.1.now)) }
    ensures count { IfSome result (λ found. length found.0.now ≡ count) }
{
    if (bytes.len() as u64) < count {
        return None;
    }
    Some(bytes.split_at(count as usize))
}

/// The bytes behind their count, and those behind them.
#[tactic(auto, unfolding(crate::specs::Front::sized_at))]
pub fn sized_front(bytes: &[u8]) -> Option<(&[u8], &[u8])>
    ensures { MatchOption result (sized_at bytes.now ≡ None)
        (λ found. sized_at bytes.now ≡ Some (found.0.now, found.1.now)) }
{
    let (count, rest) = number_front(bytes)?;
    bytes_front(rest, count)
}

/// The number of four bytes, and the bytes behind it.
#[tactic(auto, unfolding(crate::specs::Front::u32_at))]
pub fn u32_front(bytes: &[u8]) -> Option<(u32, &[u8])>
    ensures { MatchOption result (u32_at bytes.now ≡ None)
        (λ found. u32_at bytes.now ≡ Some (found.0, found.1.now)) }
{
    let (four, rest) = bytes_front(bytes, 4)?;
    let number = u32::from_be_bytes([four[0], four[1], four[2], four[3]]);
    Some((number, rest))
}

/// The signed number of eight bytes, and the bytes behind it.
#[tactic(auto, unfolding(crate::specs::Front::i64_at))]
pub fn i64_front(bytes: &[u8]) -> Option<(i64, &[u8])>
    ensures { MatchOption result (i64_at bytes.now ≡ None)
        (λ found. i64_at bytes.now ≡ Some (found.0, found.1.now)) }
{
    let (eight, rest) = bytes_front(bytes, 8)?;
    let number = i64::from_be_bytes([
        eight[0], eight[1], eight[2], eight[3], eight[4], eight[5], eight[6], eight[7],
    ]);
    Some((number, rest))
}
