// Frames, written. A frame is the length of its body as a varint, and the body: a byte for its kind,
// and its fields. The call GetChunk is 01 02; the answer S_OK is 05 10 00000000.
ghost use Rattle.std.specs.Prelude.{◌≡◌, ◌++◌, ◌≤◌, IfOk, OnOk, length};
ghost use Rattle.ci_base.specs.Varint.{varint};
ghost use Rattle.ci_wire.specs.Frame.{CanEncode, IsAnswer, IsCall, IsChunk, IsFrame, IsLittle, IsShortText, IsShortValue, answer_body, break_byte, call_body, chunk_bytes, frame_spelling, state_byte, value_bytes};

use crate::fields::{push_i64, push_u16, push_u32};
use crate::kind::{CHUNK, GET_CHUNK, GET_TEXT, GET_VALUE, INIT, INT, STATUS, STR, TEXT, VALUE};
use crate::{Answer, Call, Frame};
use ci_base::{OutOfMemory, Text, Text8, Value, put_varint};
use ci_chunk::{Break, ChunkState, StatChunk};
use std::alloc::Global;

/// The one spelling of a call.
#[tactic(auto, unfolding(crate::specs::Frame::frame_spelling))]
pub fn encode_call(alloc: Global, call: &Call) -> Result<Text8, OutOfMemory>
    ensures spelling { IfOk result (λ t. t ≡ frame_spelling (Frame.Call call.now)) }
    ensures grammar { OnOk result (IsFrame (Frame.Call call.now)) }
{
    let body = call_bytes(alloc, call)?;
    let bytes = frame_of(alloc, body.as_slice())?;
    Ok(bytes)
}

/// The one spelling of an answer.
#[tactic(auto, unfolding(crate::specs::Frame::frame_spelling))]
pub fn encode_answer(alloc: Global, answer: &Answer) -> Result<Text8, OutOfMemory>
    requires { CanEncode answer.now }
    ensures spelling { IfOk result (λ t. t ≡ frame_spelling (Frame.Answer answer.now)) }
    ensures grammar { OnOk result (IsFrame (Frame.Answer answer.now)) }
{
    let body = answer_bytes(alloc, answer)?;
    let bytes = frame_of(alloc, body.as_slice())?;
    Ok(bytes)
}

fn frame_of(alloc: Global, body: &[u8]) -> Result<Text8, OutOfMemory>
    ensures { IfOk result (λ t. t ≡ varint (length body.now) ++ body.now) }
{
    let mut bytes = Vec::new(alloc);
    put_varint(&mut bytes, body.len() as u64)?;
    bytes.extend_from_slice(body)?;
    Ok(Text8::from(bytes))
}

fn call_bytes(alloc: Global, call: &Call) -> Result<Vec<u8>, OutOfMemory>
    ensures body { IfOk result (λ v. v.items ≡ call_body call.now) }
    ensures grammar { OnOk result (IsCall call.now) }
{
    let mut body = Vec::new(alloc);
    match call {
        Call::Init { flags, path } => {
            body.push(INIT)?;
            push_u32(&mut body, *flags)?;
            body.extend_from_slice(path.as_str().as_bytes())?;
        }
        Call::GetChunk => body.push(GET_CHUNK)?,
        Call::GetText { max } => {
            body.push(GET_TEXT)?;
            push_u32(&mut body, *max)?;
        }
        Call::GetValue => body.push(GET_VALUE)?,
    }
    Ok(body)
}

fn answer_bytes(alloc: Global, answer: &Answer) -> Result<Vec<u8>, OutOfMemory>
    requires { CanEncode answer.now }
    ensures body { IfOk result (λ v. v.items ≡ answer_body answer.now) }
    ensures grammar { OnOk result (IsAnswer answer.now) }
{
    let mut body = Vec::new(alloc);
    match answer {
        Answer::Status(status) => {
            body.push(STATUS)?;
            push_u32(&mut body, status.0)?;
            Ok(body)
        }
        Answer::Chunk(chunk) => {
            body.push(CHUNK)?;
            push_chunk(&mut body, chunk)?;
            Ok(body)
        }
        Answer::Text { status, text } => {
            body.push(TEXT)?;
            push_u32(&mut body, status.0)?;
            push_text(&mut body, text)?;
            Ok(body)
        }
        Answer::Value { status, value } => {
            body.push(VALUE)?;
            push_u32(&mut body, status.0)?;
            push_value(&mut body, value)?;
            Ok(body)
        }
    }
}

fn push_chunk(out: &mut Vec<u8>, chunk: &StatChunk) -> Result<(), OutOfMemory>
    ensures bytes { OnOk result (out.new.items ≡ out.old.items ++ chunk_bytes chunk.now) }
    ensures grammar { OnOk result (IsChunk chunk.now) }
{
    push_u32(out, chunk.id)?;
    out.push(byte_of_break(chunk.break_type))?;
    out.push(byte_of_state(chunk.state))?;
    push_u32(out, chunk.locale)?;
    push_u16(out, chunk.property.0)?;
    push_u32(out, chunk.source)?;
    push_u32(out, chunk.start)?;
    push_u32(out, chunk.length)?;
    Ok(())
}

fn byte_of_break(break_type: Break) -> u8
    ensures { result ≡ break_byte break_type }
{
    break_type as u8
}

fn byte_of_state(state: ChunkState) -> u8
    ensures { result ≡ state_byte state }
{
    state as u8
}

fn push_value(out: &mut Vec<u8>, value: &Value) -> Result<(), OutOfMemory>
    requires { IsLittle value.now }
    ensures bytes { OnOk result (out.new.items ≡ out.old.items ++ value_bytes value.now) }
    ensures grammar { OnOk result (IsShortValue value.now) }
{
    match value {
        Value::Int(number) => {
            out.push(INT)?;
            push_i64(out, *number)?;
            Ok(())
        }
        Value::Str(text) => {
            out.push(STR)?;
            push_text(out, text)?;
            Ok(())
        }
    }
}

fn push_text(out: &mut Vec<u8>, text: &Text) -> Result<(), OutOfMemory>
    requires { length text.now ≤ 65536 }
    ensures bytes { OnOk result (out.new.items ≡ out.old.items ++ text.now) }
    ensures grammar { OnOk result (IsShortText text.now) }
{
    out.extend_from_slice(text.as_str().as_bytes())?;
    Ok(())
}
