// Bodies, read. Each function answers BadFrame exactly where no frame of the grammar has the body.
ghost use Rattle.std.specs.Prelude.{◌≡◌, ◌↔◌, ◌∷◌, ◌++◌, IfOk, IsErrOf, IsTrue, length};
ghost use Rattle.ci_wire.specs.Frame.{IsChunk, IsFrame, IsShortValue, IsTextStatus, IsValueStatus, NoFrame, body, break_byte, chunk_bytes, state_byte, value_bytes};
ghost use Rattle.ci_wire.specs.Numbers.{u32_bytes};
ghost use Rattle.ci_base.specs.declared.value.Value.{Value as AnyValue};

use crate::fields::{read_break, read_i64, read_state, read_text, split_u16, split_u32};
use crate::kind::{CHUNK, GET_CHUNK, GET_TEXT, GET_VALUE, INIT, INT, STATUS, STR, TEXT, VALUE};
use crate::{Answer, Call, Frame, FrameFault};
use ci_base::{PathFault, PathText, PropNo, Value};
use ci_chunk::{Break, ChunkState, StatChunk, Status};
use std::alloc::Global;

/// The frame of a whole body.
pub fn read_body(alloc: Global, bytes: &[u8]) -> Result<Frame, FrameFault>
    ensures ok { IfOk result (λ f. IsFrame f × (body f ≡ bytes.now)) }
    ensures bad { IsErrOf result FrameFault.BadFrame → NoFrame bytes.now }
{
    match bytes.split_first() {
        None => Err(FrameFault::BadFrame),
        Some((kind, fields)) => read_fields(alloc, *kind, fields),
    }
}

fn read_fields(alloc: Global, kind: u8, fields: &[u8]) -> Result<Frame, FrameFault>
    ensures ok { IfOk result (λ f. IsFrame f × (body f ≡ kind ∷ fields.now)) }
    ensures bad { IsErrOf result FrameFault.BadFrame → NoFrame (kind ∷ fields.now) }
{
    match kind {
        INIT => read_init(alloc, fields),
        GET_CHUNK => read_get_chunk(fields),
        GET_TEXT => read_get_text(fields),
        GET_VALUE => read_get_value(fields),
        STATUS => read_status(fields),
        CHUNK => read_chunk(fields),
        TEXT => read_text_answer(alloc, fields),
        VALUE => read_value_answer(alloc, fields),
        _ => Err(FrameFault::BadFrame),
    }
}

fn read_init(alloc: Global, fields: &[u8]) -> Result<Frame, FrameFault>
    ensures ok { IfOk result (λ f. IsFrame f × (body f ≡ 1 ∷ fields.now)) }
    ensures bad { IsErrOf result FrameFault.BadFrame → NoFrame (1 ∷ fields.now) }
{
    if fields.len() < 4 {
        return Err(FrameFault::BadFrame);
    }
    let (flags, path) = split_u32(fields);
    match PathText::read(alloc, path) {
        Ok(path) => Ok(Frame::Call(Call::Init { flags, path })),
        Err(PathFault::BadPath) => Err(FrameFault::BadFrame),
        Err(PathFault::OutOfMemory) => Err(FrameFault::OutOfMemory),
    }
}

fn read_get_chunk(fields: &[u8]) -> Result<Frame, FrameFault>
    ensures ok { IfOk result (λ f. IsFrame f × (body f ≡ 2 ∷ fields.now)) }
    ensures bad { IsErrOf result FrameFault.BadFrame → NoFrame (2 ∷ fields.now) }
{
    if !fields.is_empty() {
        return Err(FrameFault::BadFrame);
    }
    Ok(Frame::Call(Call::GetChunk))
}

fn read_get_text(fields: &[u8]) -> Result<Frame, FrameFault>
    ensures ok { IfOk result (λ f. IsFrame f × (body f ≡ 3 ∷ fields.now)) }
    ensures bad { IsErrOf result FrameFault.BadFrame → NoFrame (3 ∷ fields.now) }
{
    if fields.len() != 4 {
        return Err(FrameFault::BadFrame);
    }
    let (max, _) = split_u32(fields);
    Ok(Frame::Call(Call::GetText { max }))
}

fn read_get_value(fields: &[u8]) -> Result<Frame, FrameFault>
    ensures ok { IfOk result (λ f. IsFrame f × (body f ≡ 4 ∷ fields.now)) }
    ensures bad { IsErrOf result FrameFault.BadFrame → NoFrame (4 ∷ fields.now) }
{
    if !fields.is_empty() {
        return Err(FrameFault::BadFrame);
    }
    Ok(Frame::Call(Call::GetValue))
}

fn read_status(fields: &[u8]) -> Result<Frame, FrameFault>
    ensures ok { IfOk result (λ f. IsFrame f × (body f ≡ 16 ∷ fields.now)) }
    ensures bad { IsErrOf result FrameFault.BadFrame → NoFrame (16 ∷ fields.now) }
{
    if fields.len() != 4 {
        return Err(FrameFault::BadFrame);
    }
    let (status, _) = split_u32(fields);
    Ok(Frame::Answer(Answer::Status(Status(status))))
}

fn read_chunk(fields: &[u8]) -> Result<Frame, FrameFault>
    ensures ok { IfOk result (λ f. IsFrame f × (body f ≡ 17 ∷ fields.now)) }
    ensures bad { IsErrOf result FrameFault.BadFrame → NoFrame (17 ∷ fields.now) }
{
    if fields.len() != 24 {
        return Err(FrameFault::BadFrame);
    }
    let (id, rest) = split_u32(fields);
    let (pair, rest) = rest.split_at(2);
    match read_break(pair[0]) {
        None => Err(FrameFault::BadFrame),
        Some(break_type) => match read_state(pair[1]) {
            None => Err(FrameFault::BadFrame),
            Some(state) => {
                let chunk = chunk_of(id, break_type, state, rest);
                Ok(Frame::Answer(Answer::Chunk(chunk)))
            }
        },
    }
}

fn chunk_of(id: u32, break_type: Break, state: ChunkState, rest: &[u8]) -> StatChunk
    requires { length rest.now ≡ 18 }
    ensures spelled { chunk_bytes result
        ≡ u32_bytes id ++ (break_byte break_type ∷ state_byte state ∷ rest.now) }
    ensures range { IsChunk result }
{
    let (locale, rest) = split_u32(rest);
    let (property, rest) = split_u16(rest);
    let (source, rest) = split_u32(rest);
    let (start, rest) = split_u32(rest);
    let (length, _) = split_u32(rest);
    StatChunk {
        id,
        break_type,
        state,
        locale,
        property: PropNo(property),
        source,
        start,
        length,
    }
}

fn read_text_answer(alloc: Global, fields: &[u8]) -> Result<Frame, FrameFault>
    ensures ok { IfOk result (λ f. IsFrame f × (body f ≡ 18 ∷ fields.now)) }
    ensures bad { IsErrOf result FrameFault.BadFrame → NoFrame (18 ∷ fields.now) }
{
    if fields.len() < 4 {
        return Err(FrameFault::BadFrame);
    }
    let (status, text) = split_u32(fields);
    let status = Status(status);
    if !is_text_status(status) {
        return Err(FrameFault::BadFrame);
    }
    match read_text(alloc, text) {
        Ok(text) => Ok(Frame::Answer(Answer::Text { status, text })),
        Err(fault) => Err(fault),
    }
}

fn read_value_answer(alloc: Global, fields: &[u8]) -> Result<Frame, FrameFault>
    ensures ok { IfOk result (λ f. IsFrame f × (body f ≡ 19 ∷ fields.now)) }
    ensures bad { IsErrOf result FrameFault.BadFrame → NoFrame (19 ∷ fields.now) }
{
    if fields.len() < 4 {
        return Err(FrameFault::BadFrame);
    }
    let (status, value) = split_u32(fields);
    let status = Status(status);
    if !is_value_status(status) {
        return Err(FrameFault::BadFrame);
    }
    match read_value(alloc, value) {
        Ok(value) => Ok(Frame::Answer(Answer::Value { status, value })),
        Err(fault) => Err(fault),
    }
}

fn read_value(alloc: Global, bytes: &[u8]) -> Result<Value, FrameFault>
    ensures ok { IfOk result (λ v. IsShortValue v × (value_bytes v ≡ bytes.now)) }
    ensures bad { IsErrOf result FrameFault.BadFrame →
        (v : AnyValue) → IsShortValue v → ¬ (value_bytes v ≡ bytes.now) }
{
    match bytes.split_first() {
        None => Err(FrameFault::BadFrame),
        Some((kind, rest)) => match *kind {
            INT => {
                if rest.len() != 8 {
                    return Err(FrameFault::BadFrame);
                }
                Ok(Value::Int(read_i64(rest)))
            }
            STR => match read_text(alloc, rest) {
                Ok(text) => Ok(Value::Str(text)),
                Err(fault) => Err(fault),
            },
            _ => Err(FrameFault::BadFrame),
        },
    }
}

fn is_text_status(status: Status) -> bool
    ensures { IsTrue result ↔ IsTextStatus status }
{
    status == Status::S_OK || status == Status::FILTER_S_LAST_TEXT
}

fn is_value_status(status: Status) -> bool
    ensures { IsTrue result ↔ IsValueStatus status }
{
    status == Status::S_OK || status == Status::FILTER_S_LAST_VALUES
}
