// The fields of a body, read and written.
ghost use Rattle.std.specs.Prelude.{◌≡◌, ◌≢◌, ◌<◌, ◌≤◌, ◌^◌, ◌+◌, ◌++◌, IfNone, IfOk, IfSome, IsErrOf, OnErr, OnOk, length};
ghost use Rattle.ci_wire.specs.Frame.{IsShortText, break_byte, state_byte};
ghost use Rattle.ci_wire.specs.Numbers.{u16_bytes, u32_bytes, i64_bytes};
ghost use Rattle.ci_chunk.specs.declared.chunk.Break.{Break as AnyBreak};
ghost use Rattle.ci_chunk.specs.declared.chunk.ChunkState.{ChunkState as AnyState};

use crate::FrameFault;
use ci_base::{OutOfMemory, Text};
use ci_chunk::{Break, ChunkState};
use std::alloc::Global;

/// The most bytes of a text.
pub const TEXT_BYTES: usize = 65_536;

#[tactic(auto, unfolding(crate::specs::Numbers::u16_bytes))]
pub fn push_u16(out: &mut Vec<u8>, number: u16) -> Result<(), OutOfMemory>
    ensures { OnOk result (out.new.items ≡ out.old.items ++ u16_bytes number) }
{
    out.extend_from_slice(&number.to_be_bytes())?;
    Ok(())
}

#[tactic(auto, unfolding(crate::specs::Numbers::u32_bytes))]
pub fn push_u32(out: &mut Vec<u8>, number: u32) -> Result<(), OutOfMemory>
    ensures { OnOk result (out.new.items ≡ out.old.items ++ u32_bytes number) }
{
    out.extend_from_slice(&number.to_be_bytes())?;
    Ok(())
}

#[tactic(auto, unfolding(crate::specs::Numbers::i64_bytes))]
pub fn push_i64(out: &mut Vec<u8>, number: i64) -> Result<(), OutOfMemory>
    ensures { OnOk result (out.new.items ≡ out.old.items ++ i64_bytes number) }
{
    out.extend_from_slice(&number.to_be_bytes())?;
    Ok(())
}

/// The first two bytes as a number, and the bytes behind them.
pub fn split_u16(bytes: &[u8]) -> (u16, &[u8])
    requires { 2 ≤ length bytes.now }
    ensures spelled { bytes.now ≡ u16_bytes result.0 ++ result.1.now }
    ensures left { length result.1.now + 2 ≡ length bytes.now }
    ensures range { result.0 < 2 ^ 16 }
{
    let (front, rest) = bytes.split_at(2);
    (u16::from_be_bytes([front[0], front[1]]), rest)
}

/// The first four bytes as a number, and the bytes behind them.
pub fn split_u32(bytes: &[u8]) -> (u32, &[u8])
    requires { 4 ≤ length bytes.now }
    ensures spelled { bytes.now ≡ u32_bytes result.0 ++ result.1.now }
    ensures left { length result.1.now + 4 ≡ length bytes.now }
    ensures range { result.0 < 2 ^ 32 }
{
    let (front, rest) = bytes.split_at(4);
    let number = u32::from_be_bytes([front[0], front[1], front[2], front[3]]);
    (number, rest)
}

/// Eight bytes as a signed number.
pub fn read_i64(bytes: &[u8]) -> i64
    requires { length bytes.now ≡ 8 }
    ensures { bytes.now ≡ i64_bytes result }
{
    i64::from_be_bytes([
        bytes[0], bytes[1], bytes[2], bytes[3], bytes[4], bytes[5], bytes[6], bytes[7],
    ])
}

pub fn read_break(byte: u8) -> Option<Break>
    ensures some { IfSome result (λ b. break_byte b ≡ byte) }
    ensures none { IfNone result ((b : AnyBreak) → break_byte b ≢ byte) }
{
    match byte {
        0 => Some(Break::NoBreak),
        1 => Some(Break::Eow),
        2 => Some(Break::Eos),
        3 => Some(Break::Eop),
        4 => Some(Break::Eoc),
        _ => None,
    }
}

pub fn read_state(byte: u8) -> Option<ChunkState>
    ensures some { IfSome result (λ s. state_byte s ≡ byte) }
    ensures none { IfNone result ((s : AnyState) → state_byte s ≢ byte) }
{
    match byte {
        1 => Some(ChunkState::Text),
        2 => Some(ChunkState::Value),
        4 => Some(ChunkState::FilterOwnedValue),
        _ => None,
    }
}

/// All of the bytes as a text.
pub fn read_text(alloc: Global, bytes: &[u8]) -> Result<Text, FrameFault>
    ensures ok { IfOk result (λ t. t ≡ bytes.now) }
    ensures text { OnOk result (IsShortText bytes.now) }
    ensures bad { IsErrOf result FrameFault.BadFrame → ¬ IsShortText bytes.now }
{
    if bytes.len() > TEXT_BYTES {
        return Err(FrameFault::BadFrame);
    }
    match str::from_utf8(bytes) {
        Ok(text) => Ok(Text::of(alloc, text)?),
        Err(_) => Err(FrameFault::BadFrame),
    }
}
