// What the links in memory do to lists of bytes.
ghost use Rattle.std.specs.Prelude.{◌≡◌, ◌↔◌, ◌+◌, ◌<◌, ◌≤◌, ◌++◌, length, take, min, IsTrue, true, false, IfOk, vec_len, vec_capacity};

use ci_base::OutOfMemory;
use std::alloc::Global;

/// Copies as many of the bytes to the front of `out` as fit there, and answers how many.
pub(crate) fn give_front(bytes: &[u8], out: &mut [u8]) -> usize
    ensures count { result ≡ min (length out.old) (length bytes.now) }
    ensures front { take result out.new ≡ take result bytes.now }
{
    let count = out.len().min(bytes.len());
    out[..count].copy_from_slice(&bytes[..count]);
    count
}

/// Appends the bytes, unless they pass the room. It takes no memory, since the room is reserved.
pub(crate) fn add_within(kept: &mut Vec<u8>, room: usize, bytes: &[u8]) -> bool
    requires within { vec_len kept.old ≤ room }
    requires reserved { room ≤ vec_capacity kept.old }
    ensures fits { IsTrue result ↔ (vec_len kept.old + length bytes.now ≤ room) }
    ensures added { result ≡ true → kept.new.items ≡ kept.old.items ++ bytes.now }
    ensures kept { result ≡ false → kept.new.items ≡ kept.old.items }
    ensures stays_within { vec_len kept.new ≤ room }
    ensures stays_reserved { room ≤ vec_capacity kept.new }
{
    if room - kept.len() < bytes.len() {
        return false;
    }
    match kept.extend_from_slice(bytes) {
        Ok(()) => true,
        Err(_) => unreachable!(),
    }
}

/// A list of the same bytes that can grow up to `room` without more memory.
pub(crate) fn copy_within_room(
    alloc: Global,
    bytes: &[u8],
    room: usize,
) -> Result<Vec<u8>, OutOfMemory>
    ensures items { IfOk result (λ v. v.items ≡ bytes.now) }
    ensures len { IfOk result (λ v. vec_len v ≡ length bytes.now) }
    ensures reserved { IfOk result (λ v. room ≤ vec_capacity v) }
{
    let mut copied = Vec::with_capacity(alloc, room)?;
    copied.extend_from_slice(bytes)?;
    Ok(copied)
}
