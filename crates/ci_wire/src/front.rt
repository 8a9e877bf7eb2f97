// What bytes begin with.
ghost use Rattle.std.specs.Prelude.{◌≡◌, ◌≤◌, ◌↔◌, IfNone, IfOk, IfSome, IsErrOf, IsTrue, length, nat_le, take};
ghost use Rattle.std.specs.List.{list_all};
ghost use Rattle.ci_wire.specs.Frame.{IsFrame, frame_spelling};
ghost use Rattle.ci_base.specs.Varint.{varint};
ghost use Rattle.ci_wire.specs.Stream.{IsBad, IsPartial, IsSize, IsVarintFront};

use crate::body::read_body;
use crate::{Frame, FrameFault};
use ci_base::get_varint;
use std::alloc::Global;

/// The most bytes of a body.
const BODY_BYTES: u64 = 131_072;

/// The frame that begins the bytes, and the length of its spelling. None: some bytes may still come
/// that make one.
pub fn read_front(alloc: Global, bytes: &[u8]) -> Result<Option<(Frame, usize)>, FrameFault>
    ensures frame { IfOk result (λ o. IfSome o (λ found.
        IsFrame found.0 × (take found.1 bytes.now ≡ frame_spelling found.0))) }
    ensures within { IfOk result (λ o. IfSome o (λ found. found.1 ≤ length bytes.now)) }
    ensures none { IfOk result (λ o. IfNone o (IsPartial bytes.now)) }
    ensures bad { IsErrOf result FrameFault.BadFrame → IsBad bytes.now }
{
    match get_varint(bytes) {
        None if is_varint_front(bytes) => Ok(None),
        None => Err(FrameFault::BadFrame),
        Some((size, count)) => {
            if size == 0 || size > BODY_BYTES {
                return Err(FrameFault::BadFrame);
            }
            read_behind(alloc, bytes, count, size as usize)
        }
    }
}

// The same, where the size of the body was read.
fn read_behind(
    alloc: Global,
    bytes: &[u8],
    count: usize,
    size: usize,
) -> Result<Option<(Frame, usize)>, FrameFault>
    requires in_range { IsSize size }
    requires begins { take count bytes.now ≡ varint size }
    requires within { count ≤ length bytes.now }
    ensures frame { IfOk result (λ o. IfSome o (λ found.
        IsFrame found.0 × (take found.1 bytes.now ≡ frame_spelling found.0))) }
    ensures within { IfOk result (λ o. IfSome o (λ found. found.1 ≤ length bytes.now)) }
    ensures none { IfOk result (λ o. IfNone o (IsPartial bytes.now)) }
    ensures bad { IsErrOf result FrameFault.BadFrame → IsBad bytes.now }
{
    let (_, behind) = bytes.split_at(count);
    if behind.len() < size {
        return Ok(None);
    }
    match read_body(alloc, &behind[..size]) {
        Ok(frame) => Ok(Some((frame, count + size))),
        Err(fault) => Err(fault),
    }
}

// Whether the bytes are a front of a varint and not all of it: at most nine, of which each has its
// top bit set.
fn is_varint_front(bytes: &[u8]) -> bool
    ensures { IsTrue result ↔ IsVarintFront bytes.now }
{
    bytes.len() < 10 && have_top_bits(bytes)
}

fn have_top_bits(bytes: &[u8]) -> bool
    ensures { result ≡ list_all (λ b. nat_le 128 b) bytes.now }
{
    bytes.iter().all(|byte| *byte >= 128)
}
