//! The end of a program's output at the first failed write.
ghost use Rattle.std.specs.Prelude.{◌≡◌, ◌≢◌, IfErr, IsErr, None, MatchResult, false, true};
ghost use Rattle.std.specs.Io.{WritesAtMost};
ghost use Rattle.std.specs.Io.KnownBytes.{Keeps, WriteAppends};
ghost use Rattle.std.specs.IoError.{error_kind};

use std::io::{self, ErrorKind, Write};

/// A writer that writes nothing after its first error, and answers each later call with
/// [`ErrorKind::BrokenPipe`]. So a buffer in front of it, which writes its rest when it is dropped, can't
/// leave a gap in the output. An interrupted write is no error.
#[derive(Drop)]
pub struct FusedWriter<W> {
    writer: W,
    is_broken: bool,
}

impl<W> FusedWriter<W> {
    /// Wraps a writer that has had no error.
    pub fn new(writer: W) -> FusedWriter<W>
        ensures writer { result.writer ≡ writer }
        ensures whole { result.is_broken ≡ false }
    {
        FusedWriter {
            writer,
            is_broken: false,
        }
    }
}

/// Returns true if the call can't be repeated.
fn is_fatal<T>(answer: &io::Result<T>) -> bool
    ensures { MatchResult answer.now (λ _. result ≡ false) (λ e. error_kind e ≢ ErrorKind.Interrupted → result ≡ true) }
{
    match answer {
        Ok(_) => false,
        Err(e) => e.kind() != ErrorKind::Interrupted,
    }
}

impl<W: Write> Write for FusedWriter<W> {
    fn write(&mut self, buf: &[u8]) -> io::Result<usize>
        ensures bound { WritesAtMost result buf.now }
        ensures bytes { WriteAppends None None result buf.now }
        // Nothing reaches the writer after an error.
        ensures fused { self.old.is_broken ≡ true → self.new ≡ self.old }
        ensures refused { self.old.is_broken ≡ true → IsErr result }
        ensures breaks { IfErr result (λ e. error_kind e ≢ ErrorKind.Interrupted → self.new.is_broken ≡ true) }
    {
        if self.is_broken {
            return Err(io::Error::from(ErrorKind::BrokenPipe));
        }
        let wrote = self.writer.write(buf);
        self.is_broken = is_fatal(&wrote);
        wrote
    }

    fn flush(&mut self) -> io::Result<()>
        ensures bytes { Keeps None None }
        ensures fused { self.old.is_broken ≡ true → self.new ≡ self.old }
        ensures refused { self.old.is_broken ≡ true → IsErr result }
        ensures breaks { IfErr result (λ e. error_kind e ≢ ErrorKind.Interrupted → self.new.is_broken ≡ true) }
    {
        if self.is_broken {
            return Err(io::Error::from(ErrorKind::BrokenPipe));
        }
        let flushed = self.writer.flush();
        self.is_broken = is_fatal(&flushed);
        flushed
    }
}
