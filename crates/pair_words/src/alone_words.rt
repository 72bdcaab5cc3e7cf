//! Bytes that one log has alone, in words.

use crate::log::PairLog;
use shown_bytes::Piece;
use text_parts::{Either, Part, say};
use trace_io::TextSink;
use trace_text::{Number, Ordinal};
use uds_rules::Rules;

/// So many bytes that one message has alone are told.
const TOLD: usize = 8;

/// So many bytes that one log has alone, from a place of its message on.
#[derive(Clone, Copy)]
pub(crate) struct AloneWords<'a> {
    pub rules: &'a Rules,
    pub log: PairLog,
    pub count: usize,
    pub place: usize,
    pub bytes: &'a [u8],
}

impl<'a> Part for AloneWords<'a> {
    ghost use Rattle.pair_words.specs.ByteWords.{alone_words};

    ghost text = { λ words. alone_words words.rules.now words.log words.count words.place words.bytes.now };

    fn say<S: TextSink>(self, out: &mut S) {
        let AloneWords {
            rules,
            log,
            count,
            place,
            bytes,
        } = self;
        say(
            out,
            (
                AloneWhere { log, count, place },
                "<b>",
                Piece {
                    rules,
                    message: bytes,
                    place,
                    count: count.min(TOLD),
                },
                "</b>",
                UntoldWords(count),
            ),
        );
    }
}

/// Where so many bytes stand that one log has alone, from a place of its message on.
#[derive(Clone, Copy)]
struct AloneWhere {
    log: PairLog,
    count: usize,
    place: usize,
}

impl Part for AloneWhere {
    ghost use Rattle.pair_words.specs.ByteWords.{alone_where};

    ghost text = { λ words. alone_where words.log words.count words.place };

    fn say<S: TextSink>(self, out: &mut S) {
        let AloneWhere { log, count, place } = self;
        let one = (": byte ", Ordinal(place), " only in ", log, ": ");
        let several = (
            ": ",
            Number(count as u64),
            " bytes only in ",
            log,
            ", from byte ",
            Ordinal(place),
            " on: ",
        );
        say(out, Either(count == 1, one, several));
    }
}

/// How many of so many bytes are not told, if some are not.
#[derive(Clone, Copy)]
struct UntoldWords(usize);

impl Part for UntoldWords {
    ghost use Rattle.pair_words.specs.ByteWords.{untold_words};

    ghost text = { λ words. untold_words words.0 };

    fn say<S: TextSink>(self, out: &mut S) {
        if self.0 > TOLD {
            say(out, (" and ", Number((self.0 - TOLD) as u64), " more"));
        }
    }
}
