//! The lines of a piece of a log, handed on one by one.
ghost use Rattle.std.specs.Prelude.{◌≡◌, ℕ, ◌+◌, ◌-◌, ◌^◌, ◌<◌, ◌≤◌, List, [], ◌∷◌, ◌++◌, length, OnOk, IfErr, IfNone, IfSome, IsSomeAnd, Option, Some, true, false};
ghost use Rattle.can_log.specs.Wanted.{WantedValue, IsForeign};
ghost use Rattle.can_log.specs.declared.frame.Stamped.{Stamped as StampedValue};
ghost use Rattle.can_log.specs.Scanning.{Scans, ScansForeign};
ghost use Rattle.can_log.specs.WholeLog.{StandsAfter};
ghost use Rattle.trace_log.specs.Feeding.{IsOfTaker};
ghost use Rattle.trace_log.specs.proving.Reading.{ReadsPiece, ReadsEnd, IsOfLines};
ghost use Rattle.trace_log.specs.declared.fault.Fault.{Fault as FaultValue};

use crate::fault::Fault;
use can_log::{Scan, Scanner, Stamped, Wanted};

/// The most bytes that one read asks for.
pub(crate) const PIECE: usize = 4096;

/// What takes the lines of a log one by one. Its ghost members say what it is after lines, each told of what it went from.
pub trait LineTaker {
    /// What it writes to.
    type Device;

    /// What it is after lines.
    ghost took: { Self × Self.Device → List (Option StampedValue) → Self × Self.Device → Type 0 };

    /// What it is after lines where it stopped on the next one, and why.
    ghost stopped: { Self × Self.Device → List (Option StampedValue) → Option StampedValue → FaultValue → Self × Self.Device → Type 0 };

    /// The text of these first lines was written since, whatever became of the rest.
    ghost sure: { Self × Self.Device → List (Option StampedValue) → Self × Self.Device → Type 0 };

    /// Which identifiers it looks at the frames of, where it does not look at all.
    ghost wants: { Self → WantedValue → Type 0 };

    /// The identifiers: a frame of another one is foreign to it. Where there are none, no frame is.
    fn wanted(&self) -> Option<&Wanted>
        ensures { IfSome result (λ wanted. wants self.now wanted.now) };

    /// Passes the next line, by its number, which records a foreign frame.
    fn pass(&mut self, line: u64)
        ensures takes { (device : Self.Device) (wanted : WantedValue) (stamped : StampedValue) → wants self.old wanted
            → IsForeign wanted stamped.frame.id
            → (start : Self × Self.Device) (meanings : List (Option StampedValue)) → line ≡ length meanings + 1
            → took start meanings (self.old, device) → took start (meanings ++ Some stamped ∷ []) (self.new, device) }
        ensures kept { (device : Self.Device) (start : Self × Self.Device) (first : List (Option StampedValue))
            → sure start first (self.old, device) → sure start first (self.new, device) };

    /// What it is after lines, where it may wait for more of them.
    ghost rested: { Self × Self.Device → List (Option StampedValue) → Self × Self.Device → Type 0 };

    /// What it is after lines, where it could not write what was due.
    ghost broke: { Self × Self.Device → List (Option StampedValue) → Self × Self.Device → Type 0 };

    /// Writes what is due, before more is read. Answers whether it could.
    fn rest(&mut self, device: &mut Self::Device) -> bool
        ensures well { result ≡ true → (start : Self × Self.Device) (meanings : List (Option StampedValue))
            → took start meanings (self.old, device.old) → rested start meanings (self.new, device.new) × took start meanings (self.new, device.new) }
        ensures wrong { result ≡ false → (start : Self × Self.Device) (meanings : List (Option StampedValue))
            → took start meanings (self.old, device.old) → broke start meanings (self.new, device.new) }
        ensures sure { result ≡ true → (start : Self × Self.Device) (meanings : List (Option StampedValue))
            → took start meanings (self.old, device.old) → sure start meanings (self.new, device.new) }
        ensures kept { (start : Self × Self.Device) (first : List (Option StampedValue)) → sure start first (self.old, device.old) → sure start first (self.new, device.new) };

    /// Takes the next line, by its number and what it means: nothing where it is blank. It stops only by
    /// [`Fault::Oversize`] or [`Fault::Memory`].
    fn take(
        &mut self,
        device: &mut Self::Device,
        line: u64,
        what: &Option<Stamped>,
    ) -> Result<(), Fault>
        ensures fault { IfErr result IsOfTaker }
        ensures ok { OnOk result ((start : Self × Self.Device) (meanings : List (Option StampedValue)) → line ≡ length meanings + 1 → length meanings < 2 ^ 62
            → took start meanings (self.old, device.old) → took start (meanings ++ what.now ∷ []) (self.new, device.new)) }
        ensures err { IfErr result (λ fault. (start : Self × Self.Device) (meanings : List (Option StampedValue)) → line ≡ length meanings + 1 → length meanings < 2 ^ 62
            → took start meanings (self.old, device.old) → stopped start meanings what.now fault (self.new, device.new)) }
        ensures kept { (start : Self × Self.Device) (meanings first : List (Option StampedValue)) → line ≡ length meanings + 1 → length meanings < 2 ^ 62
            → took start meanings (self.old, device.old) → sure start first (self.old, device.old) → sure start first (self.new, device.new) };
}

/// Takes the lines that end in a piece.
pub(crate) fn take_lines<T: LineTaker>(
    scanner: &mut Scanner,
    piece: &[u8],
    taker: &mut T,
    device: &mut T::Device,
) -> Result<(), Fault>
    requires { scanner.old.taken + length piece.now ≤ 2 ^ 61 }
    ensures taken { OnOk result (scanner.new.taken ≤ scanner.old.taken + length piece.now) }
    ensures fault { IfErr result IsOfLines }
    ensures lines { (start : T × T.Device) (bytes : List ℕ) (meanings : List (Option StampedValue)) → StandsAfter bytes meanings scanner.old
        → T.took start meanings (taker.old, device.old) → ReadsPiece T.took T.stopped start meanings bytes piece.now result scanner.new (taker.new, device.new) }
    ensures kept { (start : T × T.Device) (bytes : List ℕ) (meanings first : List (Option StampedValue)) → StandsAfter bytes meanings scanner.old
        → T.took start meanings (taker.old, device.old) → T.sure start first (taker.old, device.old) → T.sure start first (taker.new, device.new) }
{
    let mut rest = piece;
    // A frame is large: each answer is made over the one before it.
    let mut answer = Scan::NeedMore;
    'lines: while !rest.is_empty() {
        let wanted = taker.wanted();
        if let Some(used) = scan_next(scanner, wanted, rest, &mut answer) {
            taker.pass(scanner.line_count());
            rest = &rest[used..];
            continue 'lines;
        }
        match &answer {
            Scan::Line { used, line, what } => {
                if let Err(fault) = taker.take(device, *line, what) {
                    return Err(fault);
                }
                rest = &rest[*used..];
            }
            Scan::Bad { line, column } => {
                return Err(Fault::BadLine {
                    line: *line,
                    column: *column,
                });
            }
            Scan::NeedMore | Scan::End => return Ok(()),
        }
    }
    Ok(())
}

/// Scans the next line of a piece. Where it records a frame of an identifier that is not wanted, it answers how many bytes
/// that line has.
#[inline(always)]
fn scan_next(
    scanner: &mut Scanner,
    wanted: Option<&Wanted>,
    piece: &[u8],
    answer: &mut Scan,
) -> Option<usize>
    requires { scanner.old.taken + length piece.now ≤ 2 ^ 62 }
    ensures foreign { IfSome result (λ used. IsSomeAnd wanted.entry (λ w. ScansForeign w.now scanner.old piece.now used scanner.new)) }
    ensures answer { IfNone result (Scans scanner.old piece.now answer.new scanner.new) }
{
    match wanted {
        Some(wanted) => scanner.scan_wanted_into(wanted, piece, answer),
        None => {
            scanner.scan_into(piece, answer);
            None
        }
    }
}

/// Takes the last line, if it has no line feed. Answers whether the last byte of the log is one.
pub(crate) fn take_last_line<T: LineTaker>(
    scanner: &mut Scanner,
    taker: &mut T,
    device: &mut T::Device,
) -> Result<bool, Fault>
    ensures fault { IfErr result IsOfLines }
    ensures lines { (start : T × T.Device) (log : List ℕ) (meanings : List (Option StampedValue)) → length log ≤ 2 ^ 61 → StandsAfter log meanings scanner.old
        → T.took start meanings (taker.old, device.old) → ReadsEnd T.took T.stopped start log result (taker.new, device.new) }
    ensures kept { (start : T × T.Device) (log : List ℕ) (meanings first : List (Option StampedValue)) → length log ≤ 2 ^ 61 → StandsAfter log meanings scanner.old
        → T.took start meanings (taker.old, device.old) → T.sure start first (taker.old, device.old) → T.sure start first (taker.new, device.new) }
{
    match &scanner.finish() {
        Scan::Line { line, what, .. } => match taker.take(device, *line, what) {
            Ok(()) => Ok(false),
            Err(fault) => Err(fault),
        },
        Scan::Bad { line, column } => Err(Fault::BadLine {
            line: *line,
            column: *column,
        }),
        Scan::NeedMore | Scan::End => Ok(scanner.line_count() > 0),
    }
}
