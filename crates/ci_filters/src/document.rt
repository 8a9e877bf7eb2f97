ghost use Rattle.std.specs.Prelude.{◌≡◌, ◌<◌, ◌≤◌, ◌+◌, ◌-◌, ◌^◌, ◌⊎◌, IfOk, OnErr, IsErrOf, length};
ghost use Rattle.ci_chunk.specs.Talk.{chunk_answer, text_answer, value_answer, value_bytes};
ghost use Rattle.ci_chunk.specs.Plain.{paragraph};
ghost use Rattle.ci_chunk.specs.Statuses.{last_text, last_values, s_ok};
ghost use Rattle.ci_filters.specs.Reading.{Says, fresh, left_of, piece_bytes, say_chunk, say_held, say_text, say_value, say_words, state_of};

use crate::{Content, Given, Item, TextLeft};
use ci_base::{PropNo, Text, Value};
use ci_chunk::{Break, ChunkState, FilterStop, StatChunk, Status};
use std::alloc::Global;
use std::collections::VecDeque;
use std::marker::Model;

/// The most bytes of a piece of text.
const PIECE_BYTES: u32 = 16_384;

/// The fewest bytes that a call may ask for: each character has a place in them.
const CHARACTER_BYTES: u32 = 4;

/// A document that is being read. Contracts see an `Open`.
#[derive(Drop)]
pub struct Document {
    next: u32,
    ahead: VecDeque<Item>,
    given: Given,
}

impl Model for Document {
    ghost use Rattle.std.specs.Prelude.{◌<◌, ◌≤◌, ◌+◌, ◌^◌, length};
    ghost use Rattle.ci_filters.specs.Reading.{Open, left_bytes};

    ghost Value = { Open };

    ghost view = { λ d. record { next = d.next; ahead = d.ahead.items; given = d.given } };

    ghost invariant = { λ d. (d.next + length d.ahead.items < 2 ^ 32)
        × (left_bytes d.given ≤ 65536) };
}

impl Document {
    /// A document with these chunks still to be told, of which the first has the number 1.
    pub fn new(items: VecDeque<Item>) -> Document
        requires { length items.items < 2 ^ 32 - 1 }
        ensures { result ≡ fresh items.items }
    {
        Document {
            next: 1,
            ahead: items,
            given: Given::Nothing,
        }
    }

    /// Tells the next chunk.
    pub fn get_chunk(&mut self) -> Result<StatChunk, FilterStop>
        ensures said { Says (say_chunk self.old) (chunk_answer result) self.old self.new }
        ensures memory { IsErrOf result FilterStop.OutOfMemory → ⊥ }
    {
        match self.ahead.pop_front() {
            None => Err(FilterStop::Status(Status::FILTER_E_END_OF_CHUNKS)),
            Some(item) => {
                let (property, content) = item.into_parts();
                let chunk = chunk_of(self.next, property, state_of(&content));
                self.next += 1;
                self.given = left_of(content);
                Ok(chunk)
            }
        }
    }

    /// Gives the next piece of the chunk's words.
    pub fn get_text(&mut self, alloc: Global, max: u32) -> Result<(Status, Text), FilterStop>
        ensures said { Says (say_text max self.old) (text_answer result) self.old self.new }
        ensures status { IfOk result (λ given. (given.0 ≡ s_ok) ⊎ (given.0 ≡ last_text)) }
        ensures short { IfOk result (λ given. length given.1 ≤ 65536) }
    {
        match &mut self.given {
            Given::Words(left) => give_words(alloc, left, max),
            _ => Err(FilterStop::Status(Status::FILTER_E_NO_TEXT)),
        }
    }

    /// Gives the chunk's value, once.
    pub fn get_value(&mut self) -> Result<(Status, Value), FilterStop>
        ensures said { Says (say_value self.old) (value_answer result) self.old self.new }
        ensures status { IfOk result (λ given. (given.0 ≡ s_ok) ⊎ (given.0 ≡ last_values)) }
        ensures short { IfOk result (λ given. value_bytes given.1 ≤ 65536) }
    {
        match &mut self.given {
            Given::Held(value) => give_value(value),
            _ => Err(FilterStop::Status(Status::FILTER_E_NO_VALUES)),
        }
    }
}

fn chunk_of(id: u32, property: PropNo, state: ChunkState) -> StatChunk
    ensures { result ≡ paragraph id state property }
{
    StatChunk {
        id,
        break_type: Break::Eop,
        state,
        locale: 0,
        property,
        source: id,
        start: 0,
        length: 0,
    }
}

fn state_of(content: &Content) -> ChunkState
    ensures { result ≡ state_of content.now }
{
    match content {
        Content::Words(_) => ChunkState::Text,
        Content::Held(_) => ChunkState::Value,
    }
}

fn left_of(content: Content) -> Given
    ensures { result ≡ left_of content }
{
    match content {
        Content::Words(text) => Given::Words(TextLeft::new(text)),
        Content::Held(value) => Given::Held(Some(value)),
    }
}

fn piece_bytes(max: u32) -> u32
    ensures { result ≡ piece_bytes max }
{
    if max >= CHARACTER_BYTES {
        max.min(PIECE_BYTES)
    } else {
        PIECE_BYTES
    }
}

fn give_words(alloc: Global, left: &mut TextLeft, max: u32) -> Result<(Status, Text), FilterStop>
    ensures said { Says (say_words max left.old) (text_answer result) left.old left.new }
    ensures status { IfOk result (λ given. (given.0 ≡ s_ok) ⊎ (given.0 ≡ last_text)) }
    ensures short { IfOk result (λ given. length given.1 ≤ 65536) }
{
    if left.is_empty() {
        return Err(FilterStop::Status(Status::FILTER_E_NO_MORE_TEXT));
    }
    let piece = left.take(alloc, piece_bytes(max) as usize)?;
    let status = if left.is_empty() {
        Status::FILTER_S_LAST_TEXT
    } else {
        Status::S_OK
    };
    Ok((status, piece))
}

fn give_value(value: &mut Option<Value>) -> Result<(Status, Value), FilterStop>
    ensures said { Says (say_held value.old) (value_answer result) value.old value.new }
    ensures status { IfOk result (λ given. (given.0 ≡ s_ok) ⊎ (given.0 ≡ last_values)) }
    ensures held { IfOk result (λ given. value.old ≡ Some given.1) }
{
    match value.take() {
        None => Err(FilterStop::Status(Status::FILTER_E_NO_MORE_VALUES)),
        Some(value) => Ok((Status::S_OK, value)),
    }
}
