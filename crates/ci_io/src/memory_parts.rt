// What the sources and sinks in memory do to lists of bytes.
ghost use Rattle.std.specs.Prelude.{◌≡◌, ◌↔◌, ◌+◌, ◌<◌, ◌≤◌, ◌++◌, length, take, min, IsNone, IfNone, IfOk, IfSome, vec_len, vec_capacity};

use ci_base::OutOfMemory;
use std::alloc::Global;

/// Copies as many of the bytes to the front of `out` as fit there, and answers how many.
pub(crate) fn give_front(bytes: &[u8], out: &mut [u8]) -> usize
    ensures count { result ≡ min (length out.old) (length bytes.now) }
    ensures front { take result out.new ≡ take result bytes.now }
{
    let count = out.len().min(bytes.len());
    out[..count].copy_from_slice(&bytes[..count]);
    count
}

/// Appends the first `most` of the bytes, unless they pass the room. It takes no memory, since the
/// room is reserved.
pub(crate) fn add_front(kept: &mut Vec<u8>, most: usize, room: usize, bytes: &[u8]) -> Option<usize>
    requires within { vec_len kept.old ≤ room }
    requires reserved { room ≤ vec_capacity kept.old }
    ensures refused { IsNone result ↔ (room < vec_len kept.old + min most (length bytes.now)) }
    ensures kept { IfNone result (kept.new.items ≡ kept.old.items) }
    ensures count { IfSome result (λ n. n ≡ min most (length bytes.now)) }
    ensures added { IfSome result (λ n. kept.new.items ≡ kept.old.items ++ take n bytes.now) }
    ensures stays_within { vec_len kept.new ≤ room }
    ensures stays_reserved { room ≤ vec_capacity kept.new }
{
    let count = most.min(bytes.len());
    if room - kept.len() < count {
        return None;
    }
    match kept.extend_from_slice(&bytes[..count]) {
        Ok(()) => Some(count),
        Err(_) => unreachable!(),
    }
}

/// A list of the same bytes that can grow up to `room` without more memory.
pub(crate) fn copy_within_room(
    alloc: Global,
    bytes: &[u8],
    room: usize,
) -> Result<Vec<u8>, OutOfMemory>
    ensures items { IfOk result (λ v. v.items ≡ bytes.now) }
    ensures len { IfOk result (λ v. vec_len v ≡ length bytes.now) }
    ensures reserved { IfOk result (λ v. room ≤ vec_capacity v) }
{
    let mut copied = Vec::with_capacity(alloc, room)?;
    copied.extend_from_slice(bytes)?;
    Ok(copied)
}
