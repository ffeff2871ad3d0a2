// How files are encoded. These types have a module of their own because the definitions that contracts cite name them.

ghost use Rattle.std.specs.Prelude.{◌≤◌};

/// The most bytes that are decoded at a time, as UTF-8.
pub const DECODED: usize = 8192;

/// How the text of a file is encoded.
#[derive(Clone, Copy, Debug, PartialEq, Eq)]
pub enum Encoding {
    /// UTF-8, which is read as it is.
    Utf8,
    /// ISO 8859-1: each byte is the code point of a character.
    Latin1,
}

/// A reader of the bytes of a file as UTF-8. The decoded bytes from `start` to `end` are still to be read.
#[derive(Drop)]
pub struct Decoder<R> {
    pub reader: R,
    pub encoding: Encoding,
    pub decoded: [u8; DECODED],
    pub start: usize,
    pub end: usize,
    ghost ordered: { start ≤ end },
    ghost within: { end ≤ 8192 },
}
