//! The sheet that text is gathered on, between a machine and the target.

ghost use Rattle.std.specs.Prelude.{◌≡◌, ◌+◌, ◌^◌, ◌≤◌, [], ◌++◌, MatchResult};
ghost use Rattle.trace_io.specs.Stream.{Took};
ghost use Rattle.trace_io.specs.Written.{HasWritten};
ghost use Rattle.trace_run.specs.proving.Gathering.{HasGathered};

use crate::gathered_text::{GatheredText, SHEET_LENGTH};
use trace_io::{DeviceFault, MOST_FAILURES, Target, TextSink, write_all};

/// Text that is still to be written, and whether writing has failed: nothing is written from then on. It is a block of
/// memory, whatever text stands on it.
#[derive(Drop)]
pub(crate) struct Sheet {
    pub gathered: GatheredText,
    pub failed: bool,
}

impl Sheet {
    ghost use Rattle.std.specs.Prelude.{◌≡◌, ◌<◌, ◌≤◌, ◌^◌, ℕ, List, [], ◌++◌, length, true, false};
    ghost use Rattle.trace_run.specs.proving.Carrying.{HasSaid, Says, Settles, SaysNoMore};

    /// A sheet with nothing on it.
    pub(crate) fn new() -> Sheet
        ensures well { result.failed ≡ false }
        ensures blank { result.gathered ≡ [] }
    {
        Sheet {
            gathered: GatheredText::new(),
            failed: false,
        }
    }

    /// Puts a text on the sheet. Most texts find room there: so much is inlined where a text is said, and what else
    /// there is to do stands apart.
    #[inline(always)]
    fn put<W: Target>(&mut self, target: &mut W, text: &[u8])
        ensures { Says W.Target self.old target.old text.now self.new target.new }
    {
        if !self.gathered.try_append(text) {
            self.put_where_full(target, text);
        }
    }

    /// Puts a text on a sheet that has no room for it: the sheet is filled with the front of it and written. So what
    /// this writes is a whole sheet, or all that stood before a text that is longer than one.
    #[inline(never)]
    fn put_where_full<W: Target>(&mut self, target: &mut W, text: &[u8])
        requires { 0 < length text.now }
        ensures { Says W.Target self.old target.old text.now self.new target.new }
    {
        if !self.may_write(target) {
            return;
        }
        if let Err(_fault) = gather(target, &mut self.gathered, text) {
            self.failed = true;
        }
    }

    /// Puts a text on the sheet that no write is to end within.
    #[inline(always)]
    fn put_whole<W: Target>(&mut self, target: &mut W, text: &[u8])
        ensures { Says W.Target self.old target.old text.now self.new target.new }
    {
        if !self.gathered.try_append(text) {
            self.put_whole_where_full(target, text);
        }
    }

    /// Puts such a text on a sheet that has no room for it: what is on the sheet is written first.
    #[inline(never)]
    fn put_whole_where_full<W: Target>(&mut self, target: &mut W, text: &[u8])
        ensures { Says W.Target self.old target.old text.now self.new target.new }
    {
        // Where this fails, the sheet knows that, and writes no text.
        let _ = self.settle(target);
        self.put(target, text);
    }

    /// Puts three texts on the sheet, one after another. Each is laid where it is to lie: put together first, they
    /// would be read by a covering load (`docs/DECISIONS.md`).
    #[inline(always)]
    fn put_three<W: Target>(&mut self, target: &mut W, first: &[u8], second: &[u8], third: &[u8])
        ensures { Says W.Target self.old target.old (first.now ++ second.now ++ third.now) self.new target.new }
    {
        if !self.gathered.try_append_three(first, second, third) {
            self.put_three_where_full(target, first, second, third);
        }
    }

    /// Puts three texts on a sheet that has no room for them all: what is on the sheet is written first, so that the
    /// writes end where they would if the three were one text. Texts that no sheet has room for are put one by one.
    #[inline(never)]
    fn put_three_where_full<W: Target>(
        &mut self,
        target: &mut W,
        first: &[u8],
        second: &[u8],
        third: &[u8],
    )
        ensures { Says W.Target self.old target.old (first.now ++ second.now ++ third.now) self.new target.new }
    {
        // Where this fails, the sheet knows that, and writes no text.
        let _ = self.settle(target);
        if self.gathered.try_append_three(first, second, third) {
            return;
        }
        self.put(target, first);
        self.put(target, second);
        self.put(target, third);
    }

    /// Writes what is on the sheet. Answers whether all that was said is written.
    pub(crate) fn settle<W: Target>(&mut self, target: &mut W) -> bool
        ensures settled { Settles W.Target self.old target.old result target.new }
        ensures well { result ≡ true → self.new.failed ≡ false }
        ensures blank { result ≡ true → self.new.gathered ≡ [] }
        ensures no_more { SaysNoMore W.Target self.old target.old self.new target.new }
    {
        if !self.may_write(target) {
            return false;
        }
        if self.gathered.is_empty() {
            return true;
        }
        if let Err(_fault) = write_out(target, &mut self.gathered) {
            self.failed = true;
            return false;
        }
        true
    }

    /// Whether text may be written: no write has failed. The target is asked for its count of failures, too, since a
    /// write may raise it. Where no write has failed the count is as low as at the start of the run, and the answer is
    /// yes.
    #[inline(always)]
    fn may_write<W: Target>(&self, target: &W) -> bool
        ensures well { result ≡ true → self.now.failed ≡ false }
        ensures low { result ≡ true → W.failures target.now ≤ 2 ^ 62 }
        ensures wrong { result ≡ false → (start : W) (said : List ℕ)
            → HasSaid W.Target start said self.now target.now → self.now.failed ≡ true }
    {
        !self.failed && target.failures() <= MOST_FAILURES
    }
}

/// Fills a sheet, which has no room for the text, with the front of it, writes that, and begins the next one with what
/// is left. A text that no sheet has room for is written at once, behind what the sheet holds.
fn gather<W: Target>(
    target: &mut W,
    gathered: &mut GatheredText,
    text: &[u8],
) -> Result<(), DeviceFault>
    requires { W.failures target.old ≤ 2 ^ 62 }
    ensures failures { MatchResult result
        (λ _. W.failures target.new ≡ W.failures target.old) (λ _. W.failures target.new ≡ W.failures target.old + 1) }
    ensures no_empty_write { W.had_empty_write target.new ≡ W.had_empty_write target.old }
    ensures flushes { W.flushes target.new ≡ W.flushes target.old }
    ensures took { Took (W.taken target.old) (W.taken target.new) (W.contents target.old) (W.contents target.new) }
    ensures taken { HasGathered result (W.taken target.old) (gathered.old ++ text.now)
        (W.taken target.new) gathered.new }
{
    if text.len() > SHEET_LENGTH {
        write_out(target, gathered)?;
        return write_all(target, text);
    }
    let (front, rest) = text.split_at(text.len().min(gathered.room()));
    gathered.append(front);
    write_out(target, gathered)?;
    gathered.append(rest);
    Ok(())
}

/// Writes the text that is gathered, and lets it go, whether it was written or not.
fn write_out<W: Target>(target: &mut W, gathered: &mut GatheredText) -> Result<(), DeviceFault>
    requires { W.failures target.old ≤ 2 ^ 62 }
    ensures failures { MatchResult result
        (λ _. W.failures target.new ≡ W.failures target.old) (λ _. W.failures target.new ≡ W.failures target.old + 1) }
    ensures no_empty_write { W.had_empty_write target.new ≡ W.had_empty_write target.old }
    ensures flushes { W.flushes target.new ≡ W.flushes target.old }
    ensures took { Took (W.taken target.old) (W.taken target.new) (W.contents target.old) (W.contents target.new) }
    ensures taken { HasWritten result (W.taken target.old) gathered.old (W.taken target.new) }
    ensures blank { gathered.new ≡ [] }
{
    let result = write_all(target, gathered.as_slice());
    gathered.clear();
    result
}

/// A sheet beside the target that it is written to.
#[derive(Drop)]
pub(crate) struct SheetSink<'a, W> {
    pub target: &'a mut W,
    pub sheet: &'a mut Sheet,
}

impl<'a, W: Target> TextSink for SheetSink<'a, W> {
    ghost use Rattle.std.specs.Prelude.{◌≡◌};
    ghost use Rattle.std.proofs.Common.{refl, ◌∙◌};
    ghost use Rattle.trace_run.specs.proving.Carrying.{Says};
    ghost use Rattle.trace_run.specs.proving.SheetSinks.{says_empty_text, says_onward};

    ghost says = { λ s text t. (t.target.ghost_name ≡ s.target.ghost_name) × (t.sheet.ghost_name ≡ s.sheet.ghost_name)
        × Says W.Target s.sheet.now s.target.now text t.sheet.now t.target.now };

    ghost nothing = { λ s. (refl, refl, says_empty_text W.Target s.sheet.now s.target.now) };

    ghost onward = { λ s m t a b one two. (
      two.0 ∙ one.0,
      two.1 ∙ one.1,
      says_onward W.Target s.sheet.now m.sheet.now t.sheet.now s.target.now m.target.now t.target.now a b one.2 two.2,
    ) };

    #[inline(always)]
    fn put(&mut self, text: &[u8]) {
        self.sheet.put(self.target, text);
    }

    #[inline(always)]
    fn put_whole(&mut self, text: &[u8]) {
        self.sheet.put_whole(self.target, text);
    }

    #[inline(always)]
    fn put_three(&mut self, first: &[u8], second: &[u8], third: &[u8]) {
        self.sheet.put_three(self.target, first, second, third);
    }
}
