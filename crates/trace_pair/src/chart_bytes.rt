//! The bytes of a message in a chart, with a mark at each that differs.

ghost use Rattle.std.specs.Prelude.{◌≡◌};
ghost use Rattle.trace_pair.specs.FirstDifference as Spec;

use crate::pair_bytes::are_masked;
use byte_columns::ByteColumns;
use pair_words::{PairLog, ShownLogs, have_word, say_columns};
use shown_bytes::Data;
use text_parts::{Part, say};
use trace_io::TextSink;
use uds_rules::Rules;

/// The bytes of a message of a log that rules have left: beside the one of the other log, where there is one.
#[derive(Clone, Copy)]
pub(crate) struct ChartData<'a> {
    pub rules: &'a Rules,
    pub log: PairLog,
    pub message: &'a [u8],
    pub other: Option<&'a [u8]>,
}

impl<'a> Part for ChartData<'a> {
    ghost use Rattle.std.specs.Prelude.{option_map};
    ghost use Rattle.trace_pair.specs.FirstDifference.{chart_data};

    ghost text = { λ shown. chart_data shown.rules.now shown.log shown.message.now (option_map (λ bytes. bytes.now) shown.other) };

    fn say<S: TextSink>(self, out: &mut S) {
        let ChartData {
            rules,
            log,
            message,
            other,
        } = self;
        match other {
            Some(other) => say_beside(rules, log, message, other, out),
            None => say(out, Data { rules, message }),
        }
    }
}

/// Says the bytes of a message beside the one of the other log, where rules mask neither.
fn say_beside<S: TextSink>(rules: &Rules, log: PairLog, message: &[u8], other: &[u8], out: &mut S)
    ensures { S.says out.old (Spec.beside_text rules.now log message.now other.now) out.new }
{
    if are_masked(rules, message, other) {
        say(out, Data { rules, message });
    } else {
        let columns = beside_of(log, message, other);
        say_columns(
            ShownLogs::Only(log),
            have_word(message, other),
            &columns,
            out,
        );
    }
}

/// Two messages beside each other, of which the first one is of this log.
fn beside_of<'a>(log: PairLog, own: &'a [u8], other: &'a [u8]) -> ByteColumns<'a>
    ensures { result ≡ Spec.beside_of log own.now other.now }
{
    match log {
        PairLog::A => ByteColumns::of(own, other),
        PairLog::B => ByteColumns::of(other, own),
    }
}
