//! A script, read from any reader and answered on any writer.

ghost use Rattle.std.specs.Prelude.{◌≡◌, ◌≤◌, ◌<◌, ◌+◌, ◌++◌, [], ◌∷◌, drop, length, take, IfNone, IfSome, IfOk, IfErr, OnOk, Option, Some, List, ℕ, string_bytes};
ghost use Rattle.std.specs.Io.KnownBytes.{Appends};
ghost use Rattle.script_core.specs.declared.script.Outcome.{Outcome};
ghost use Rattle.script_core.specs.Drawn.{Draws, Ends};
ghost use Rattle.script_core.specs.Kept.{Came, ComesToEnd, HasKept, ReadsOn};
ghost use Rattle.script_core.specs.Script.{runs_from, script};
ghost use Rattle.script_lines.specs.Breaks.{IsOneLine};
ghost use Rattle.script_session.specs.Session.{State};
ghost use Rattle.script_threads.specs.Standing.{Known};
ghost use Rattle.diagram_svg.specs.Markup.{IsDocument};
ghost use Rattle.script_core.specs.Outcomes.{status_of, fault_at, Answers, Position, opening, rest_of, IsAt, Took, Progress, GoesOn, AppendsFront};

use crate::lines::Lines;
use crate::options::Options;
use diagram_svg::put_picture;
use run_diagrams::LineRange;
use script_lines::{LINE_LIMIT, Reason, split_line};
use script_session::{Session, Stop};
use std::alloc::{AllocError, Global};
use std::io::{self, ErrorKind, Read, Write};

/// The most lines of a script that are run.
pub const LINES: u64 = 1_048_576;

/// The outcome of a script.
#[derive(Clone, Copy, Debug, PartialEq, Eq)]
pub enum Outcome {
    /// It ran through, refused commands included.
    Ran,
    /// The script ends at a line that is bad, or that expects another reply: its number, from 1, and the
    /// reason. The output of the lines before stays.
    BadLine(u64, Reason),
    /// Memory is wanting, or threads are.
    OutOfMemory,
    /// It ran through at nodes in threads, and the histories of these don't merge.
    Unmerged,
    /// Reading or writing failed, or the input has more than 1,048,576 lines.
    Failed,
}

impl Outcome {
    /// The exit status of the program.
    pub fn status(self) -> u8
        ensures { result ≡ status_of self }
    {
        match self {
            Outcome::Ran => 0,
            Outcome::BadLine(_, Reason::Unmet) => 7,
            Outcome::BadLine(..) => 3,
            Outcome::OutOfMemory => 4,
            Outcome::Unmerged => 5,
            Outcome::Failed => 6,
        }
    }
}

/// Runs the script that the reader gives, and writes its output. The output and the outcome are functions
/// of its bytes and the options: see `specs/Script.antt`.
///
/// The output is flushed whenever the reader has given all that it has at hand. After a bad line, and where
/// memory, reading or writing fails, nothing more is read or written. The bytes written until then are the
/// beginning of the script's output. The fault of a bad line is put behind the advice, and the remedy where
/// there is an obvious one, as far as there is memory for it.
pub fn run_script<R: Read, W: Write>(
    alloc: Global,
    reader: &mut R,
    writer: &mut W,
    options: &Options,
    advice: &mut String,
) -> Outcome
    ensures { IfSome (R.remaining reader.old) (λ input. Answers (script options.now.trace options.now.seed input) (W.contents writer.old) (W.contents writer.new) result) }
{
    let outcome = run_to_end(alloc, reader, writer, options, advice);
    if outcome == Outcome::Failed || writer.flush().is_ok() {
        return outcome;
    }
    Outcome::Failed
}

fn run_to_end<R: Read, W: Write>(
    alloc: Global,
    reader: &mut R,
    writer: &mut W,
    options: &Options,
    advice: &mut String,
) -> Outcome
    ensures { IfSome (R.remaining reader.old) (λ input. Answers (script options.now.trace options.now.seed input) (W.contents writer.old) (W.contents writer.new) result) }
{
    let session = Session::new(alloc, options.trace, options.seed);
    let mut script = Script::new(alloc, session);
    let outcome = script.read_all(alloc, reader, writer);
    script.advise(alloc, outcome, advice);
    outcome
}

/// Runs the script that the reader gives, and writes in place of its output a line of JSON for each event
/// that comes of it, in the order of the run, refused ones too. The outcome is a function of the script's
/// bytes and the options, as of [`run_script`].
///
/// Lines are written and flushed whenever the reader has given all that it has at hand. After a bad line,
/// and where memory, reading or writing fails, nothing more is read; the events before have their lines,
/// unless it is writing that fails.
pub fn run_telling<R: Read, W: Write>(
    alloc: Global,
    reader: &mut R,
    writer: &mut W,
    options: &Options,
    advice: &mut String,
) -> Outcome {
    let session = Session::new(alloc, options.trace, options.seed);
    let mut script = Script::new(alloc, session);
    script.session.tell_events();
    let mut unseen = io::sink();
    for _ in 0..u64::MAX {
        let ended = script.read_on(alloc, reader, &mut unseen);
        if let Err(failed) = script.write_events(writer) {
            return failed;
        }
        if let Some(outcome) = ended {
            script.advise(alloc, outcome, advice);
            return outcome;
        }
    }
    Outcome::Failed
}

/// Runs the script that the reader gives, and writes in place of its output a drawing in SVG of all that
/// happens at these lines. The outcome is a function of the script's bytes and the options, as of
/// [`run_script`].
///
/// The drawing is written at the end, behind a bad line too, or where reading has failed: then it is of the
/// events until there. Where memory is wanting nothing is written.
pub fn run_drawing<R: Read, W: Write>(
    alloc: Global,
    reader: &mut R,
    writer: &mut W,
    options: &Options,
    lines: LineRange,
    advice: &mut String,
) -> Outcome
    ensures draws { Draws (W.contents writer.old) (W.contents writer.new) result }
    ensures ends { IfSome (R.remaining reader.old) (λ input. Ends (script options.now.trace options.now.seed input).verdict result) }
{
    let session = Session::new(alloc, options.trace, options.seed);
    let mut script = Script::new(alloc, session);
    if script.session.draw_picture(alloc, lines).is_err() {
        return Outcome::OutOfMemory;
    }
    let outcome = script.read_all(alloc, reader, &mut io::sink());
    if outcome == Outcome::OutOfMemory {
        return outcome;
    }
    script.advise(alloc, outcome, advice);
    let Ok(drawing) = script.drawing(alloc) else {
        return Outcome::OutOfMemory;
    };
    match write_whole(writer, drawing.as_bytes()) {
        Ok(()) => outcome,
        Err(failed) => failed,
    }
}

/// A script of which a part was read.
#[derive(Drop)]
pub(crate) struct Script<S> {
    pub(crate) session: S,
    /// The bytes that have come of the line that is being read.
    pending: Vec<u8>,
    /// The number of that line, from 1.
    number: u64,
}

impl<S: Lines> Script<S> {
    /// Nothing of it was read.
    pub(crate) fn new(alloc: Global, session: S) -> Script<S>
        ensures session { result.session ≡ session }
        ensures at { (state : State) → S.stands session state → IsAt S.stands result (opening state) }
        ensures kept { (known : Known) → S.keeps known session [] → HasKept (S.keeps known) result 1 [] }
    {
        Script {
            session,
            pending: Vec::new(alloc),
            number: 1,
        }
    }

    /// Returns the session that has run its lines.
    pub(crate) fn into_session(self) -> S
        ensures { result ≡ self.session }
    {
        self.session
    }

    /// Reads on until the script has ended, and returns its outcome.
    pub(crate) fn read_all<R: Read, W: Write>(
        &mut self,
        alloc: Global,
        reader: &mut R,
        writer: &mut W,
    ) -> Outcome
        ensures { (from : State) → IsAt S.stands self.old (opening from) →
            IfSome (R.remaining reader.old) (λ input. Answers (runs_from from input) (W.contents writer.old) (W.contents writer.new) result) }
    {
        for _ in 0..u64::MAX {
            if let Some(outcome) = self.read_on(alloc, reader, writer) {
                return outcome;
            }
        }
        Outcome::Failed
    }

    /// Puts the fault of the line at which it ended behind the advice, if that line is a bad one.
    pub(crate) fn advise(&self, alloc: Global, outcome: Outcome, advice: &mut String) {
        if let Outcome::BadLine(_, reason) = outcome {
            let _ = self
                .session
                .put_advice(alloc, advice, reason, &self.pending);
        }
    }

    /// The number of the line that is being read, from 1.
    pub(crate) fn number(&self) -> u64
        ensures { result ≡ self.now.number }
    {
        self.number
    }

    /// Reads once, and takes the bytes read. Returns the outcome of the script, if it has ended.
    pub(crate) fn read_on<R: Read, W: Write>(
        &mut self,
        alloc: Global,
        reader: &mut R,
        writer: &mut W,
    ) -> Option<Outcome>
        ensures goes { (from : State) (input : List ℕ) (held : Option (List ℕ)) → Progress from input (R.remaining reader.old) (IsAt S.stands self.old) held (W.contents writer.old)
            → GoesOn from input (R.remaining reader.new) (IsAt S.stands self.new) held (W.contents writer.new) result }
        ensures kept { (known : Known) (first : ℕ) (bytes left : List ℕ) → HasKept (S.keeps known) self.old first bytes → R.remaining reader.old ≡ Some left
            → ReadsOn (S.keeps known) self.new first bytes left (R.remaining reader.new) result }
    {
        let mut chunk = [0u8; 4096];
        match reader.read(&mut chunk) {
            Ok(0) => Some(self.finish(alloc, writer)),
            Ok(len) => match self.take(alloc, &chunk[..len], writer) {
                Ok(()) => None,
                Err(outcome) => Some(outcome),
            },
            Err(error) if error.kind() == ErrorKind::Interrupted => None,
            Err(_) => Some(Outcome::Failed),
        }
    }

    /// Takes more of the script: runs each line that ends in `bytes`, and keeps the bytes behind the last.
    fn take<W: Write>(&mut self, alloc: Global, bytes: &[u8], writer: &mut W) -> Result<(), Outcome>
        ensures took { (p : Position) → IsAt S.stands self.old p → Took p bytes.now (IsAt S.stands self.new) (W.contents writer.old) (W.contents writer.new) result }
        ensures kept { (known : Known) (first : ℕ) (before : List ℕ) → HasKept (S.keeps known) self.old first before → Came (S.keeps known) self.new first (before ++ bytes.now) result }
    {
        let mut rest = bytes;
        while let Some(parts) = split_line(rest) {
            let (text, behind) = parts;
            self.end_line(alloc, text, writer)?;
            rest = behind;
        }
        self.take_text(rest)?;
        match writer.flush() {
            Ok(()) => Ok(()),
            Err(_) => Err(Outcome::Failed),
        }
    }

    /// Takes the last bytes of a line, in front of its newline, and runs the line.
    fn end_line<W: Write>(
        &mut self,
        alloc: Global,
        text: &[u8],
        writer: &mut W,
    ) -> Result<(), Outcome>
        requires { IsOneLine text.now }
        ensures took { (p : Position) → IsAt S.stands self.old p → Took p (text.now ++ (10 ∷ [])) (IsAt S.stands self.new) (W.contents writer.old) (W.contents writer.new) result }
        ensures kept { (known : Known) (first : ℕ) (before : List ℕ) → HasKept (S.keeps known) self.old first before → Came (S.keeps known) self.new first (before ++ text.now ++ (10 ∷ [])) result }
    {
        self.take_text(text)?;
        self.run_line(alloc, writer)
    }

    /// Takes bytes of one line. No newline is among them.
    fn take_text(&mut self, text: &[u8]) -> Result<(), Outcome>
        requires { IsOneLine text.now }
        ensures took { (p : Position) (held : Option (List ℕ)) → IsAt S.stands self.old p → Took p text.now (IsAt S.stands self.new) held held result }
        ensures kept { (known : Known) (first : ℕ) (before : List ℕ) → HasKept (S.keeps known) self.old first before → Came (S.keeps known) self.new first (before ++ text.now) result }
    {
        if text.len() > LINE_LIMIT.saturating_sub(self.pending.len()) {
            return Err(self.fault(Reason::TooLong));
        }
        match self.pending.extend_from_slice(text) {
            Ok(()) => Ok(()),
            Err(_) => Err(Outcome::OutOfMemory),
        }
    }

    /// The line that is being read is bad, if it is still one of those that are run.
    fn fault(&self, reason: Reason) -> Outcome
        ensures { result ≡ fault_at self.now.number reason }
    {
        if self.number > LINES {
            return Outcome::Failed;
        }
        Outcome::BadLine(self.number, reason)
    }

    /// Runs the line that was read, and begins the next.
    fn run_line<W: Write>(&mut self, alloc: Global, writer: &mut W) -> Result<(), Outcome>
        ensures next { OnOk result (self.new.pending.items ≡ []) }
        ensures took { (p : Position) → IsAt S.stands self.old p → Took p (10 ∷ []) (IsAt S.stands self.new) (W.contents writer.old) (W.contents writer.new) result }
        ensures kept { (known : Known) (first : ℕ) (before : List ℕ) → HasKept (S.keeps known) self.old first before → Came (S.keeps known) self.new first (before ++ (10 ∷ [])) result }
    {
        if self.number > LINES {
            return Err(Outcome::Failed);
        }
        let mut out = String::new(alloc);
        match self.session.line(alloc, &self.pending, &mut out) {
            Ok(()) => {}
            Err(Stop::Bad(reason)) => return Err(Outcome::BadLine(self.number, reason)),
            Err(Stop::OutOfMemory) => return Err(Outcome::OutOfMemory),
        }
        self.pending.clear();
        self.number += 1;
        write_bytes(writer, out.as_bytes())?;
        Ok(())
    }

    /// The script has come to its end.
    fn finish<W: Write>(&mut self, alloc: Global, writer: &mut W) -> Outcome
        ensures answers { (p : Position) → IsAt S.stands self.old p → Answers (rest_of p []) (W.contents writer.old) (W.contents writer.new) result }
        ensures kept { (known : Known) (first : ℕ) (before : List ℕ) → HasKept (S.keeps known) self.old first before → ComesToEnd (S.keeps known) self.new first before result }
    {
        if self.pending.is_empty() {
            return Outcome::Ran;
        }
        match self.run_line(alloc, writer) {
            Ok(()) => Outcome::Ran,
            Err(outcome) => outcome,
        }
    }
}

impl Script<Session> {
    /// Returns a drawing of the events that have happened.
    fn drawing(&mut self, alloc: Global) -> Result<String, AllocError>
        ensures { IfOk result (λ drawing. IsDocument (string_bytes drawing)) }
    {
        let diagram = self.session.picture(alloc)?;
        let mut out = String::new(alloc);
        put_picture(alloc, &mut out, &diagram)?;
        Ok(out)
    }

    /// Writes the lines of the events that have happened since the last were written.
    fn write_events<W: Write>(&mut self, writer: &mut W) -> Result<(), Outcome>
        ensures wrote { OnOk result (Appends (W.contents writer.old) (W.contents writer.new) (string_bytes self.old.session.stage.telling.lines)) }
        ensures taken { OnOk result (string_bytes self.new.session.stage.telling.lines ≡ []) }
        ensures err { IfErr result (λ outcome. outcome ≡ Outcome.Failed) }
    {
        write_bytes(writer, self.session.events().as_bytes())?;
        self.session.clear_events();
        match writer.flush() {
            Ok(()) => Ok(()),
            Err(_) => Err(Outcome::Failed),
        }
    }
}

/// Writes the bytes, or where writing fails a beginning of them.
pub(crate) fn write_bytes<W: Write>(writer: &mut W, bytes: &[u8]) -> Result<(), Outcome>
    ensures ok { OnOk result (Appends (W.contents writer.old) (W.contents writer.new) bytes.now) }
    ensures err { IfErr result (λ outcome. (outcome ≡ Outcome.Failed) × AppendsFront bytes.now (W.contents writer.old) (W.contents writer.new)) }
{
    let mut rest = bytes;
    for _ in 0..u64::MAX {
        if rest.is_empty() {
            return Ok(());
        }
        let len = write_some(writer, rest)?;
        rest = &rest[len..];
    }
    Err(Outcome::Failed)
}

/// The same, and flushes them.
pub(crate) fn write_whole<W: Write>(writer: &mut W, bytes: &[u8]) -> Result<(), Outcome>
    ensures ok { OnOk result (Appends (W.contents writer.old) (W.contents writer.new) bytes.now) }
    ensures err { IfErr result (λ outcome. (outcome ≡ Outcome.Failed) × AppendsFront bytes.now (W.contents writer.old) (W.contents writer.new)) }
{
    write_bytes(writer, bytes)?;
    match writer.flush() {
        Ok(()) => Ok(()),
        Err(_) => Err(Outcome::Failed),
    }
}

/// Writes a beginning of the bytes, and returns its length: 0 where the writer was interrupted.
fn write_some<W: Write>(writer: &mut W, bytes: &[u8]) -> Result<usize, Outcome>
    ensures bound { IfOk result (λ len. len ≤ length bytes.now) }
    ensures ok { IfOk result (λ len. Appends (W.contents writer.old) (W.contents writer.new) (take len bytes.now)) }
    ensures err { IfErr result (λ outcome. (outcome ≡ Outcome.Failed) × Appends (W.contents writer.old) (W.contents writer.new) []) }
{
    match writer.write(bytes) {
        Ok(0) => Err(Outcome::Failed),
        Ok(len) => Ok(len),
        Err(error) if error.kind() == ErrorKind::Interrupted => Ok(0),
        Err(_) => Err(Outcome::Failed),
    }
}
