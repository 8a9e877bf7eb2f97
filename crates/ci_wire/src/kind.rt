//! The bytes that tell the kind of a frame, and of a value in it.

pub const INIT: u8 = 1;

pub const GET_CHUNK: u8 = 2;

pub const GET_TEXT: u8 = 3;

pub const GET_VALUE: u8 = 4;

pub const STATUS: u8 = 16;

pub const CHUNK: u8 = 17;

pub const TEXT: u8 = 18;

pub const VALUE: u8 = 19;

/// A number as a value.
pub const INT: u8 = 1;

/// A text as a value.
pub const STR: u8 = 2;
