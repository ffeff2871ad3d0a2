// The bytes of files as UTF-8.

ghost use Rattle.std.specs.Prelude.{◌≡◌, ◌≤◌, ◌<◌, ◌+◌, ◌++◌, ℕ, IfOk, List, Some, encode_utf8, encode_utf8_all, length, min, slice_range, take};
ghost use Rattle.std.specs.Io.{ReadsAtMost};
ghost use Rattle.std.specs.Io.KnownBytes.{ReadConsumes};
ghost use Rattle.tq_import.specs.Encodings.{IsDecoded, bytes_left, utf8_of};

use crate::encoding::{DECODED, Decoder, Encoding};
use std::io::{self, Read};

// The most bytes in Latin-1 that are decoded at a time: each becomes at most two.
const TAKEN: usize = 4096;

// The first code point whose UTF-8 has two bytes.
const FIRST_OF_TWO: u8 = 128;

// Writes the UTF-8 of the character with this code point at a place, and returns the next place.
fn put_char(code: u8, at: usize, into: &mut [u8; DECODED]) -> usize
    requires { at + 2 ≤ 8192 }
    ensures text { take result into.new ≡ take at into.old ++ encode_utf8 code }
    ensures within { result ≤ at + 2 }
{
    if code < FIRST_OF_TWO {
        into[at] = code;
        return at + 1;
    }
    into[at] = 192 + code / 64;
    into[at + 1] = 128 + code % 64;
    at + 2
}

// Writes the UTF-8 of the characters with these code points, and returns its length.
fn decode_latin1(codes: &[u8], into: &mut [u8; DECODED]) -> usize
    requires { length codes.now ≤ 4096 }
    ensures text { take result into.new ≡ encode_utf8_all codes.now }
    ensures within { result ≤ 8192 }
{
    let mut end = 0;
    'codes: for code in codes {
        end = put_char(*code, end, into);
    }
    end
}

// Reads bytes in Latin-1, and returns the length of their UTF-8: 0 only at the end of the file.
fn read_latin1<R: Read>(reader: &mut R, into: &mut [u8; DECODED]) -> io::Result<usize>
    ensures bytes { IsDecoded (R.remaining reader.old) (R.remaining reader.new) into.new result }
    ensures within { IfOk result (λ len. len ≤ 8192) }
{
    let mut taken = [0; TAKEN];
    let count = reader.read(&mut taken)?;
    Ok(decode_latin1(&taken[..count], into))
}

// Copies as many bytes as the buffer has room for, and returns their number.
fn copy_front(bytes: &[u8], into: &mut [u8]) -> usize
    ensures copied { take result into.new ≡ take result bytes.now }
    ensures count { result ≡ min (length bytes.now) (length into.new) }
{
    let count = bytes.len().min(into.len());
    into[..count].copy_from_slice(&bytes[..count]);
    count
}

impl<R: Read> Decoder<R> {
    /// A decoder that has decoded nothing.
    pub fn over(reader: R, encoding: Encoding) -> Decoder<R>
        ensures { (text : List ℕ) → R.remaining reader ≡ Some text → bytes_left R.remaining result ≡ Some (utf8_of encoding text) }
    {
        Decoder {
            reader,
            encoding,
            decoded: [0; DECODED],
            start: 0,
            end: 0,
        }
    }

    // Copies decoded bytes into the buffer, and returns their number: 0 only if there are none or if there is no room.
    fn give(&mut self, buf: &mut [u8]) -> usize
        ensures reader { self.new.reader ≡ self.old.reader }
        ensures encoding { self.new.encoding ≡ self.old.encoding }
        ensures bytes { slice_range self.old.decoded self.old.start self.old.end ≡ take result buf.new ++ slice_range self.new.decoded self.new.start self.new.end }
        ensures none { result ≡ 0 → 0 < length buf.new → self.old.start ≡ self.old.end }
        ensures within { result ≤ length buf.new }
    {
        let count = copy_front(&self.decoded[self.start..self.end], buf);
        self.start += count;
        count
    }

    // Reads bytes in Latin-1 into the buffer. None are left that were decoded before.
    fn read_decoded(&mut self, buf: &mut [u8]) -> io::Result<usize>
        requires none { self.old.start ≡ self.old.end }
        requires latin1 { self.old.encoding ≡ Encoding.Latin1 }
        ensures bound { ReadsAtMost result buf.new }
        ensures bytes { ReadConsumes (bytes_left R.remaining self.old) (bytes_left R.remaining self.new) result buf.new }
    {
        let len = read_latin1(&mut self.reader, &mut self.decoded)?;
        self.start = 0;
        self.end = len;
        Ok(self.give(buf))
    }
}

impl<R: Read> Read for Decoder<R> {
    ghost remaining = { λ decoder. bytes_left R.remaining decoder };

    fn read(&mut self, buf: &mut [u8]) -> io::Result<usize> {
        if self.start < self.end {
            return Ok(self.give(buf));
        }
        match self.encoding {
            Encoding::Utf8 => self.reader.read(buf),
            Encoding::Latin1 => self.read_decoded(buf),
        }
    }
}
