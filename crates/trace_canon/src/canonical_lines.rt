//! The canonical lines of a message, frame by frame, as far as they are within the limit.
//!
//! A *stretch* is what fills a long message: the full consecutive frames of its sender that stand one behind another.
//! What the identifier gives of each of their lines is made once.

ghost use Rattle.std.specs.Prelude.{◌≡◌, ◌≤◌, ℕ, List, ◌∷◌, length, false};
ghost use Rattle.can_log.specs.Canonical.{canonical_line, canonical_name};
ghost use Rattle.can_log.specs.declared.frame.Id.TheVariants.{Std, Ext};
ghost use Rattle.direction.specs.declared.Dir.{Dir as DirValue};
ghost use Rattle.isotp_receive.specs.declared.TheConstants.{MESSAGE_LIMIT};
ghost use Rattle.isotp_segment.specs.CanonicalFrames.{canonical_frames};
ghost use Rattle.isotp_segment.specs.FullFrames.{FullFrameIsNext};
ghost use Rattle.trace_log.specs.Settings.{id_of};
ghost use Rattle.trace_canon.specs.proving.Saying.{SaysFront};
ghost use Rattle.trace_canon.specs.proving.Writing.{filled_up, text_from, progress_after};

use crate::length::has_frames;
use crate::progress::Progress;
use can_log::{
    BASE_LINE, BASE_NAME, EXTENDED_NAME, Id, LineClock, base_line, base_name, extended_line,
    extended_name, line_end, line_length,
};
use direction::Dir;
use isotp_segment::{SINGLE_LIMIT, Segments, single_frame};
use trace_io::TextSink;
use trace_log::Config;

/// How many bytes a canonical line has beside what its identifier gives.
const LENGTH_BESIDE_NAME: usize = BASE_LINE - BASE_NAME;

/// Says the lines of a message. Most messages have one frame, which is made and said by itself.
pub(crate) fn say_canonical<S: TextSink>(
    config: &Config,
    progress: &mut Progress,
    dir: Dir,
    message: &[u8],
    out: &mut S,
)
    ensures says { S.says out.old
        (text_from config.now progress.old (canonical_frames MESSAGE_LIMIT dir message.now)) out.new }
    ensures progress { progress.new
        ≡ progress_after config.now progress.old (canonical_frames MESSAGE_LIMIT dir message.now) }
{
    if has_frames(message) {
        if message.len() <= SINGLE_LIMIT {
            say_frame(config, progress, dir, &single_frame(message), out);
        } else {
            say_frames(config, progress, dir, Segments::new(dir, message), out);
        }
    }
}

/// Says the lines of the frames of a message, up to the first that does not fit. Behind the continue frame of the
/// other side stand the full frames of the sender.
fn say_frames<S: TextSink>(
    config: &Config,
    progress: &mut Progress,
    dir: Dir,
    frames: Segments<'_>,
    out: &mut S,
)
    ensures says { S.says out.old (text_from config.now progress.old frames.entry) out.new }
    ensures progress { progress.new ≡ progress_after config.now progress.old frames.entry }
{
    let mut rest = frames;
    'frames: while let Some(next) = rest.next() {
        let sender = next.0;
        let frame = next.1;
        if !say_frame(config, progress, sender, &frame, out) {
            return;
        }
        if sender != dir {
            rest = say_full_frames(config, progress, dir, rest, out);
        }
    }
}

/// Says the line of a frame, if it fits.
#[inline(always)]
fn say_frame<S: TextSink>(
    config: &Config,
    progress: &mut Progress,
    sender: Dir,
    frame: &[u8; 8],
    out: &mut S,
) -> bool
    ensures says { (later : List (DirValue × List ℕ))
        → SaysFront S.says config.now progress.old out.old ((sender, frame.now) ∷ later) progress.new out.new later }
    ensures over { result ≡ false → progress.new ≡ filled_up progress.old }
{
    let id = config.id_of(sender);
    let length = line_length(id);
    if !progress.admit(length) {
        return false;
    }
    say_line(progress.clock(), id, frame, out);
    progress.after_line(length);
    true
}

/// Says the canonical line of a frame.
#[inline(always)]
fn say_line<S: TextSink>(clock: &LineClock, id: Id, frame: &[u8; 8], out: &mut S)
    ensures { S.says out.old (canonical_line clock.now id frame.now) out.new }
{
    match id {
        Id::Std(number) => out.put_whole(&base_line(clock, number, frame)),
        Id::Ext(number) => out.put_whole(&extended_line(clock, number, frame)),
    }
}

/// Says the lines of the stretch that comes next, of this sender, as far as there is room, and answers the frames that
/// are left.
#[inline(always)]
fn say_full_frames<'a, S: TextSink>(
    config: &Config,
    progress: &mut Progress,
    sender: Dir,
    frames: Segments<'a>,
    out: &mut S,
) -> Segments<'a>
    ensures says { SaysFront S.says config.now progress.old out.old frames.entry progress.new out.new result }
    ensures no_more { length result ≤ length frames.entry }

    // What says no line of a stretch keeps `says`, too. This refuses it: a full frame is left only where none has room.
    ensures misses_none { FullFrameIsNext sender result → progress.new.room ≡ 0 }
{
    match config.id_of(sender) {
        Id::Std(number) => {
            let name = base_name_in_memory(number);
            say_stretch(config, progress, sender, name, frames, out)
        }
        Id::Ext(number) => {
            let name = extended_name_in_memory(number);
            say_stretch(config, progress, sender, name, frames, out)
        }
    }
}

/// What a base identifier gives of each of its lines. It is made by a call, so that its parts lie together in memory.
#[inline(never)]
fn base_name_in_memory(number: u16) -> [u8; BASE_NAME]
    ensures { result ≡ canonical_name (Std number) }
{
    base_name(number)
}

/// What an extended identifier gives of each of its lines, by a call, too.
#[inline(never)]
fn extended_name_in_memory(number: u32) -> [u8; EXTENDED_NAME]
    ensures { result ≡ canonical_name (Ext number) }
{
    extended_name(number)
}

/// Does what [`say_full_frames`] does, by what the sender's identifier gives of each line. The three parts of a line
/// are said as they lie: put together first, it would be loaded by a covering load. The frames are moved in and out, so
/// that none of their parts has to lie in memory meanwhile.
#[inline(always)]
fn say_stretch<'a, S: TextSink, const NAME: usize>(
    config: &Config,
    progress: &mut Progress,
    sender: Dir,
    name: [u8; NAME],
    frames: Segments<'a>,
    out: &mut S,
) -> Segments<'a>
    requires name { name ≡ canonical_name (id_of config.now sender) }
    requires short { NAME ≤ EXTENDED_NAME }
    ensures says { SaysFront S.says config.now progress.old out.old frames.entry progress.new out.new result }
    ensures no_more { length result ≤ length frames.entry }
    ensures misses_none { FullFrameIsNext sender result → progress.new.room ≡ 0 }
{
    let mut rest = frames;
    'stretch: while let Some(frame) = rest.next_full(sender) {
        if !progress.admit(LENGTH_BESIDE_NAME + NAME) {
            return rest;
        }
        out.put_three(progress.clock().stamp(), &name, &line_end(&frame));
        progress.after_line(LENGTH_BESIDE_NAME + NAME);
    }
    rest
}
