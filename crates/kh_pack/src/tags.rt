//! The first byte of each kind of term.

pub const INTEGER: u8 = 1;

pub const ATOM: u8 = 2;

pub const BINARY: u8 = 3;

pub const NIL: u8 = 4;

pub const LIST: u8 = 5;

pub const TUPLE: u8 = 6;

pub const MAP: u8 = 7;

pub const CLOSURE: u8 = 8;
