ghost use Rattle.std.specs.Prelude.{◌≡◌, ◌<◌, ◌≤◌, IfOk, OnOk, OnErr, IfErr, IsErrOf};
ghost use Rattle.std.specs.Io.{ReadsAtMost, WritesAtMost};
ghost use Rattle.std.specs.Io.KnownBytes.{ReadConsumes, Appends, WriteAppends};
ghost use Rattle.apsp_io.specs.Streams.{next_count, Rose, GrowsByPrefix};
ghost use Rattle.apsp_io.specs.Standard.{reader_of, read_faults_of, writer_of, write_faults_of};

use crate::{Failed, GiveError, Sink, Source};
use std::io::{Read, Write};

/// A source over a reader of the standard library. What the reader tells of the bytes that remain,
/// the source tells: of standard input nothing. It counts the errors of the reader.
#[derive(Drop)]
pub struct StdSource<R: Read + Drop> {
    reader: R,
    faults: u64,
}

impl<R: Read + Drop> StdSource<R> {
    /// Takes no memory.
    pub fn new(reader: R) -> Self
        ensures reader { reader_of result ≡ reader }
        ensures faults { read_faults_of result ≡ 0 }
    {
        StdSource { reader, faults: 0 }
    }
}

impl<R: Read + Drop> Source for StdSource<R> {
    ghost left = { λ s. R.remaining (reader_of s) };

    ghost faults = { read_faults_of };

    fn take(&mut self, into: &mut [u8]) -> Result<usize, Failed>
        ensures bound { ReadsAtMost result into.new }
        ensures bytes { ReadConsumes (R.remaining (reader_of self.old))
            (R.remaining (reader_of self.new)) result into.new }
        ensures later { read_faults_of self.old ≤ read_faults_of self.new }
        ensures failed { OnErr result (Rose (read_faults_of self.old) (read_faults_of self.new)) }

        ensures ok { OnOk result (read_faults_of self.new ≡ read_faults_of self.old) }
        ensures err { OnErr result (read_faults_of self.new ≡ next_count (read_faults_of self.old)) }
    {
        match self.reader.read(into) {
            Ok(count) => Ok(count),
            Err(_) => {
                self.faults = self.faults.saturating_add(1);
                Err(Failed)
            }
        }
    }
}

/// A sink over a writer of the standard library. What the writer tells of its contents, the sink
/// tells: of standard output nothing. It counts the errors of the writer, and a write that takes
/// no bytes. Each piece is flushed. It never answers want of memory.
#[derive(Drop)]
pub struct StdSink<W: Write + Drop> {
    writer: W,
    faults: u64,
}

impl<W: Write + Drop> StdSink<W> {
    /// Takes no memory.
    pub fn new(writer: W) -> Self
        ensures writer { writer_of result ≡ writer }
        ensures faults { write_faults_of result ≡ 0 }
    {
        StdSink { writer, faults: 0 }
    }
}

impl<W: Write + Drop> Sink for StdSink<W> {
    ghost held = { λ s. W.contents (writer_of s) };

    ghost faults = { write_faults_of };

    fn give(&mut self, piece: &[u8]) -> Result<(), GiveError>
        ensures given { OnOk result
            (Appends (W.contents (writer_of self.old)) (W.contents (writer_of self.new)) piece.now) }
        ensures part { IsErrOf result GiveError.Failed
            → GrowsByPrefix (W.contents (writer_of self.old)) (W.contents (writer_of self.new)) piece.now }
        ensures later { write_faults_of self.old ≤ write_faults_of self.new }
        ensures failed { IsErrOf result GiveError.Failed → Rose (write_faults_of self.old) (write_faults_of self.new) }
        ensures memory { IsErrOf result GiveError.Memory
            → W.contents (writer_of self.new) ≡ W.contents (writer_of self.old) }
        ensures memory_faults { IsErrOf result GiveError.Memory → write_faults_of self.new ≡ write_faults_of self.old }

        ensures never_memory { IfErr result (λ e. e ≡ GiveError.Failed) }
        ensures ok { OnOk result (write_faults_of self.new ≡ write_faults_of self.old) }
        ensures err { OnErr result (write_faults_of self.new ≡ next_count (write_faults_of self.old)) }
    {
        match write_out(&mut self.writer, piece) {
            Ok(()) => Ok(()),
            Err(Failed) => {
                self.faults = self.faults.saturating_add(1);
                Err(GiveError::Failed)
            }
        }
    }
}

/// Writes the whole piece and flushes it.
fn write_out<W: Write>(writer: &mut W, piece: &[u8]) -> Result<(), Failed>
    ensures ok { OnOk result (Appends (W.contents writer.old) (W.contents writer.new) piece.now) }
    ensures part { OnErr result (GrowsByPrefix (W.contents writer.old) (W.contents writer.new) piece.now) }
{
    let mut rest = piece;
    while !rest.is_empty() {
        let count = write_some(writer, rest)?;
        rest = &rest[count..];
    }
    match writer.flush() {
        Ok(()) => Ok(()),
        Err(_) => Err(Failed),
    }
}

/// Writes a front of the piece that is not empty.
fn write_some<W: Write>(writer: &mut W, piece: &[u8]) -> Result<usize, Failed>
    ensures some { IfOk result (λ count. 0 < count) }
    ensures bound { WritesAtMost result piece.now }
    ensures bytes { WriteAppends (W.contents writer.old) (W.contents writer.new) result piece.now }
{
    match writer.write(piece) {
        Ok(0) | Err(_) => Err(Failed),
        Ok(count) => Ok(count),
    }
}
