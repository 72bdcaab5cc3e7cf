//! What is told of columns that are folded, or not shown.

use crate::column_counts::ColumnCounts;
use crate::column_lines::ShownLogs;
use crate::log::{PairLog, other_log};
use shown_bytes::MoreWords;
use text_parts::{Either, Part, say};
use trace_io::TextSink;
use trace_text::Number;

/// How many bytes are folded, how many of them differ, and how many only the other log has, where one is shown.
#[derive(Clone, Copy)]
pub(crate) struct FoldWords(pub ShownLogs, pub ColumnCounts);

impl Part for FoldWords {
    ghost use Rattle.pair_words.specs.ColumnLines.{fold_words};

    ghost text = { λ words. fold_words words.0 words.1.all words.1.differing words.1.others };

    fn say<S: TextSink>(self, out: &mut S) {
        let ColumnCounts {
            all,
            differing,
            others,
        } = self.1;
        let more = (Number(all as u64), MoreWords(all as u64));
        let some = (more, ", ", DifferingWords(differing));
        say(
            out,
            (
                Either(all == 0, "no byte more", some),
                OnlyInOther(self.0, others),
            ),
        );
    }
}

/// How many bytes are not shown, if some are not, how many of them differ, and how many only the other log has, where
/// one is shown.
#[derive(Clone, Copy)]
pub(crate) struct HiddenWords(pub ShownLogs, pub ColumnCounts);

impl Part for HiddenWords {
    ghost use Rattle.pair_words.specs.ColumnLines.{hidden_words};

    ghost text = { λ words. hidden_words words.0 words.1.all words.1.differing words.1.others };

    fn say<S: TextSink>(self, out: &mut S) {
        let ColumnCounts {
            all,
            differing,
            others,
        } = self.1;
        let more = (Number(all as u64), MoreWords(all as u64));
        let some = (more, ", not shown; ", DifferingWords(differing));
        let told = (
            "<p class=\"rest\"><i>",
            Either(all == 0, "no byte more", some),
            OnlyInOther(self.0, others),
            "</i></p>",
        );
        say(out, Either(all == 0 && others == 0, (), told));
    }
}

/// So many bytes that only the other log has, where one is shown.
#[derive(Clone, Copy)]
struct OnlyInOther(ShownLogs, usize);

impl Part for OnlyInOther {
    ghost use Rattle.pair_words.specs.ColumnLines.{other_words};

    ghost text = { λ words. other_words words.0 words.1 };

    fn say<S: TextSink>(self, out: &mut S) {
        match self.0 {
            ShownLogs::Both => {}
            ShownLogs::Only(log) => say(out, OnlyIn(other_log(log), self.1)),
        }
    }
}

/// So many bytes that only this log has, if it has some.
#[derive(Clone, Copy)]
struct OnlyIn(PairLog, usize);

impl Part for OnlyIn {
    ghost use Rattle.pair_words.specs.ColumnLines.{only_words};

    ghost text = { λ words. only_words words.0 words.1 };

    fn say<S: TextSink>(self, out: &mut S) {
        let OnlyIn(log, count) = self;
        let some = ("; ", BytesWord(count), " only in ", log);
        say(out, Either(count == 0, (), some));
    }
}

/// So many bytes.
#[derive(Clone, Copy)]
struct BytesWord(usize);

impl Part for BytesWord {
    ghost use Rattle.pair_words.specs.ColumnLines.{bytes_word};

    ghost text = { λ bytes. bytes_word bytes.0 };

    fn say<S: TextSink>(self, out: &mut S) {
        let several = (Number(self.0 as u64), " bytes");
        say(out, Either(self.0 == 1, "1 byte", several));
    }
}

/// How many of some bytes differ.
#[derive(Clone, Copy)]
struct DifferingWords(usize);

impl Part for DifferingWords {
    ghost use Rattle.pair_words.specs.ColumnLines.{differ_words};

    ghost text = { λ differ. differ_words differ.0 };

    fn say<S: TextSink>(self, out: &mut S) {
        let several = (Number(self.0 as u64), " of them differ");
        say(
            out,
            Either(
                self.0 == 0,
                "the same",
                Either(self.0 == 1, "1 of them differs", several),
            ),
        );
    }
}
