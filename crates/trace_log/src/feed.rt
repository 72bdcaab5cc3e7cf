//! A log read piece by piece. What is due is written before each read.
ghost use Rattle.std.specs.Prelude.{◌≡◌, ℕ, ◌+◌, ◌-◌, ◌^◌, ◌≤◌, List, [], length, OnOk, MatchResult, true};
ghost use Rattle.std.specs.Io.KnownBytes.{IsAtEnd};
ghost use Rattle.trace_io.specs.Stream.{Gave};
ghost use Rattle.trace_log.specs.Answers.{ReadsWhile};
ghost use Rattle.trace_log.specs.Feeding.{TakesFront, FeedsLog, FeedsSome, CountsRead, WroteBefore};
ghost use Rattle.trace_log.specs.Devices.{AgreesWith, bytes_given, HasLowCounts};

use crate::fault::Fault;
use crate::lines::{LineTaker, PIECE, take_last_line, take_lines};
use can_log::Scanner;
use trace_io::Source;

/// Takes the lines of a log one by one, as they come, and answers whether its last byte is a line feed. Before each
/// read the taker writes what is due. A fault of a device is [`Fault::Read`] or [`Fault::Write`], one of the taker is handed
/// on.
///
/// No more than `max_bytes` bytes count, at most 2^40. One more refuses the log, [`Fault::LogLimit`], but a line before it
/// that can't be read does so first, [`Fault::BadLine`].
pub fn feed_lines<R: Source, T: LineTaker>(
    max_bytes: u64,
    source: &mut R,
    taker: &mut T,
    device: &mut T::Device,
) -> Result<bool, Fault>
    requires limit { max_bytes ≤ 2 ^ 40 }
    requires source { HasLowCounts R.Source source.old }

    ensures lines { (log : List ℕ) → AgreesWith R.Source source.old source.new log
        → (start : T × T.Device) → T.took start [] (taker.old, device.old)
        → FeedsLog T.took T.rested T.broke T.stopped start max_bytes log (bytes_given R.Source source.old source.new) result (taker.new, device.new) }

    ensures near { (log : List ℕ) → AgreesWith R.Source source.old source.new log
        → (start : T × T.Device) → T.took start [] (taker.old, device.old)
        → ReadsWhile (TakesFront T.took start log) (bytes_given R.Source source.old source.new) (R.failures source.old) (R.failures source.new) }

    // Before each read what was due was written: so the text of the lines that had ended before the last piece was.
    ensures eager { (log : List ℕ) → AgreesWith R.Source source.old source.new log
        → (start : T × T.Device) → T.took start [] (taker.old, device.old) → T.sure start [] (taker.old, device.old)
        → WroteBefore T.sure start log (bytes_given R.Source source.old source.new) (taker.new, device.new) }

    ensures takes { (start : T × T.Device) → T.took start [] (taker.old, device.old)
        → FeedsSome T.took T.rested T.broke T.stopped start result (taker.new, device.new) }

    ensures over { OnOk result (R.is_over source.new ≡ true) }
    ensures ended { (R.is_over source.old ≡ true → IsAtEnd (R.remaining source.old)) → R.is_over source.new ≡ true → IsAtEnd (R.remaining source.new) }
    ensures gave { Gave (R.given source.old) (R.given source.new) (R.remaining source.old) (R.remaining source.new) }
    ensures given { length (R.given source.new) ≤ length (R.given source.old) + max_bytes + 1 }
    ensures reads { R.reads source.new ≤ R.reads source.old + max_bytes + 1 }
    ensures progress { R.reads source.new ≤ R.reads source.old + (bytes_given R.Source source.old source.new) + 1 }
    ensures failures { MatchResult result (λ _. R.failures source.new ≡ R.failures source.old)
        (λ fault. CountsRead fault (R.failures source.old) (R.failures source.new)) }
{
    let mut piece = [0; PIECE];
    let mut scanner = Scanner::new();
    let mut left = max_bytes;
    'reading: loop {
        if !taker.rest(device) {
            return Err(Fault::Write);
        }
        let most = left.min(PIECE as u64);
        let room = most.max(1) as usize;
        let Ok(n) = source.read(&mut piece[..room]) else {
            return Err(Fault::Read);
        };
        if n == 0 {
            return take_last_line(&mut scanner, taker, device);
        }
        if left == 0 {
            return Err(Fault::LogLimit);
        }
        if let Err(fault) = take_lines(&mut scanner, &piece[..n], taker, device) {
            return Err(fault);
        }
        left -= n as u64;
    }
}
