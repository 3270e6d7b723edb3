//! Lines that are cut from pieces of an input.
ghost use Rattle.std.specs.Prelude.{◌≡◌, ◌+◌, ◌++◌, ◌≤◌, ◌<◌, ℕ, List, [], length, take, false, true, nat_lt, ◌||◌, if◌then◌else◌, ◌==◌, vec_len, vec_capacity, IfOk};
ghost use Rattle.script_reader.specs.declared.TheConstants.{MOST_LINE_BYTES};
ghost use Rattle.script_reader.specs.Cutter.{StandsFor, line_part, has_newline, CutsLines};

use crate::MOST_LINE_BYTES;
use apsp_model::Memory;
use memchr::memchr;
use std::alloc::Global;
use std::marker::Model;

/// What was taken of a piece.
#[derive(Clone, Copy, Debug, PartialEq, Eq)]
pub struct Cut {
    /// How many bytes were taken, the newline among them.
    pub used: usize,
    /// Whether a newline was taken.
    pub whole: bool,
}

/// The content so far of the line that is being cut, as far as it is not too long.
#[derive(Debug, Drop)]
pub struct LineCutter {
    kept: Vec<u8>,
    too_long: bool,
    whole: bool,
}

impl Model for LineCutter {
    ghost use Rattle.std.specs.Vec.{vec_capacity};
    ghost use Rattle.script_reader.specs.Cutter.{Cutting, IsCutting};

    ghost Value = { Cutting };

    ghost view = { λ c. record { kept = c.kept.items; too_long = c.too_long; whole = c.whole } };

    ghost invariant = { λ c. IsCutting c.kept.items (vec_capacity c.kept) c.too_long };
}

impl LineCutter {
    /// A cutter at the begin of a line, with room for the longest one.
    pub fn new(alloc: Global) -> Result<LineCutter, Memory>
        ensures content { IfOk result (λ c. StandsFor c []) }
        ensures open { IfOk result (λ c. c.whole ≡ false) }
    {
        let kept = Vec::with_capacity(alloc, MOST_LINE_BYTES).map_err(|_| Memory)?;
        Ok(LineCutter {
            kept,
            too_long: false,
            whole: false,
        })
    }

    /// Takes the bytes of the piece up to and with the first newline, or all of them. It takes no
    /// memory.
    pub fn feed(&mut self, piece: &[u8]) -> Cut
        requires { self.old.whole ≡ false }
        ensures whole { result.whole ≡ has_newline piece.now }
        ensures used { result.used ≡ length (line_part piece.now) + (if result.whole then 1 else 0) }
        ensures within { result.used ≤ length piece.now }
        ensures content { (content : List ℕ) → StandsFor self.old content
            → StandsFor self.new (content ++ line_part piece.now) }
        ensures state { self.new.whole ≡ result.whole }
        ensures lines { (input : List ℕ) → CutsLines result.whole result.used input piece.now }
    {
        let (part, whole) = line_part(piece);
        self.keep(part);
        self.whole = whole;
        Cut {
            used: part.len() + usize::from(whole),
            whole,
        }
    }

    /// The content so far, or its first `MOST_LINE_BYTES` bytes where it is too long.
    pub fn line(&self) -> &[u8]
        ensures { result.now ≡ self.now.kept }
    {
        &self.kept
    }

    /// Whether the content so far has more than `MOST_LINE_BYTES` bytes.
    pub fn too_long(&self) -> bool
        ensures { result ≡ self.now.too_long }
    {
        self.too_long
    }

    /// Whether there is no content so far.
    pub fn is_empty(&self) -> bool
        ensures { result ≡ (length self.now.kept == 0) }
    {
        self.kept.is_empty()
    }

    /// Begins the next line.
    pub fn clear(&mut self)
        ensures content { StandsFor self.new [] }
        ensures open { self.new.whole ≡ false }
    {
        self.kept.clear();
        self.too_long = false;
        self.whole = false;
    }

    /// Keeps as many of the bytes as there is room for.
    fn keep(&mut self, bytes: &[u8])
        ensures kept { self.new.kept ≡ take MOST_LINE_BYTES (self.old.kept ++ bytes.now) }
        ensures too_long { self.new.too_long
            ≡ (self.old.too_long || nat_lt MOST_LINE_BYTES (length self.old.kept + length bytes.now)) }
        ensures whole { self.new.whole ≡ self.old.whole }
    {
        let room = MOST_LINE_BYTES - self.kept.len();
        let count = room.min(bytes.len());
        self.too_long |= count < bytes.len();
        extend_within(&mut self.kept, &bytes[..count]);
    }
}

/// What stands before the first newline of a piece, or all of it, and whether there is one.
fn line_part(piece: &[u8]) -> (&[u8], bool)
    ensures part { result.0.now ≡ line_part piece.now }
    ensures whole { result.1 ≡ has_newline piece.now }
    ensures within { length result.0.now + (if result.1 then 1 else 0) ≤ length piece.now }
{
    match memchr(b'\n', piece) {
        Some(place) => (&piece[..place], true),
        None => (piece, false),
    }
}

/// Appends bytes that there is room for, so that no memory is taken.
fn extend_within(kept: &mut Vec<u8>, bytes: &[u8])
    requires { vec_len kept.old + length bytes.now ≤ vec_capacity kept.old }
    ensures items { kept.new.items ≡ kept.old.items ++ bytes.now }
    ensures capacity { vec_capacity kept.old ≤ vec_capacity kept.new }
{
    if kept.extend_from_slice(bytes).is_err() {
        unreachable!()
    }
}

#[cfg(test)]
mod tests {
    use super::*;
    use std::test::Fail;

    /// Feeds a piece until nothing of it is left, and appends each line with a bar behind it.
    fn feed_all(cutter: &mut LineCutter, piece: &[u8], lines: &mut Vec<u8>) -> Result<(), Fail>
        requires { cutter.old.whole ≡ false }
        ensures { cutter.new.whole ≡ false }
    {
        let mut rest = piece;
        'pieces: for _ in 0..piece.len() {
            let cut = cutter.feed(rest);
            rest = &rest[cut.used..];
            if cut.whole {
                end_line(cutter, lines)?;
            }
        }
        Ok(())
    }

    fn end_line(cutter: &mut LineCutter, lines: &mut Vec<u8>) -> Result<(), Fail>
        ensures { cutter.new.whole ≡ false }
    {
        let appended = lines.extend_from_slice(cutter.line());
        cutter.clear();
        appended?;
        lines.push(b'|')?;
        Ok(())
    }

    #[test]
    fn every_cutting_has_the_same_lines(rt: HostRuntime) -> Result<(), Fail> {
        let input = b"ab\n\nc\r\n d\nrest";
        for at in 0..input.len() {
            let mut cutter = LineCutter::new(rt.alloc()).map_err(|_| Fail::from("memory"))?;
            let mut lines = Vec::new(rt.alloc());
            feed_all(&mut cutter, &input[..at], &mut lines)?;
            feed_all(&mut cutter, &input[at..], &mut lines)?;
            assert_eq!(rt; lines.as_slice(), b"ab||c\r| d|".as_slice(), "cut at {at}");
            assert_eq!(rt; cutter.line(), b"rest".as_slice());
            assert!(rt; !cutter.is_empty());
            cutter.clear();
            assert!(rt; cutter.is_empty());
        }
        Ok(())
    }

    #[test]
    fn long_lines_are_cut_off(rt: HostRuntime) -> Result<(), Fail> {
        for (len, too_long) in [
            (65535usize, false),
            (65536, false),
            (65537, true),
            (70000, true),
        ] {
            let mut cutter = LineCutter::new(rt.alloc()).map_err(|_| Fail::from("memory"))?;
            let line = vec![in rt.alloc(); b'x'; len]?;
            cutter.feed(&line);
            assert_eq!(rt; cutter.too_long(), too_long, "{len} bytes");
            assert_eq!(rt; cutter.line().len(), len.min(65536));
        }
        Ok(())
    }
}
