//! Trouble codes as people spell them, behind the bytes of a message.
ghost use Rattle.std.specs.Prelude.{◌≡◌, ◌==◌, take};
ghost use Rattle.std.specs.Int.{bit_at};

use text_parts::{Part, When, say};
use trace_io::TextSink;
use trace_text::Number;
use uds_names::{status_bit_name, trouble_code, trouble_records};

/// Behind the first code so many are shown.
const MOST_FURTHER: usize = 15;

/// So many bytes are shown of them: each code has three, and its status.
const FURTHER_BYTES: usize = 60;

/// The trouble codes of a message, if it has some, as far as they are shown, and how many others there are.
#[derive(Clone, Copy)]
pub(crate) struct TroubleText<'a>(pub &'a [u8]);

impl<'a> Part for TroubleText<'a> {
    ghost use Rattle.shown_bytes.specs.TroubleCodes.{trouble_text};

    ghost text = { λ message. trouble_text message.0.now };

    fn say<S: TextSink>(self, out: &mut S) {
        match trouble_records(self.0) {
            [high, middle, low, status, rest @ ..] => {
                let first = CodeText(*high, *middle, *low, *status);
                say(
                    out,
                    (
                        " <i>(read as SAE J2012: ",
                        first,
                        FurtherCodes(rest),
                        ")</i>",
                    ),
                );
            }
            _ => {}
        }
    }
}

/// The codes behind the first one, as far as they are shown, and how many others there are.
#[derive(Clone, Copy)]
struct FurtherCodes<'a>(&'a [u8]);

impl<'a> Part for FurtherCodes<'a> {
    ghost use Rattle.shown_bytes.specs.TroubleCodes.{further_codes};

    ghost text = { λ records. further_codes records.0.now };

    fn say<S: TextSink>(self, out: &mut S) {
        let records = self.0;
        let shown = first_of(records, FURTHER_BYTES);
        let more = (records.len() / 4).saturating_sub(MOST_FURTHER);
        say(out, (CodesBehind(shown), MoreCodes(more as u64)));
    }
}

/// So many of some bytes, the first ones, or all of fewer.
fn first_of(bytes: &[u8], count: usize) -> &[u8]
    ensures { result.now ≡ take count bytes.now }
{
    &bytes[..count.min(bytes.len())]
}

/// How many codes are not shown, if there are some.
#[derive(Clone, Copy)]
struct MoreCodes(u64);

impl Part for MoreCodes {
    ghost use Rattle.shown_bytes.specs.TroubleCodes.{more_codes};

    ghost text = { λ more. more_codes more.0 };

    fn say<S: TextSink>(self, out: &mut S) {
        let count = self.0;
        if count != 0 {
            say(out, (", and ", Number(count), " more"));
        }
    }
}

/// Codes with what their status says, each behind a comma.
#[derive(Clone, Copy)]
struct CodesBehind<'a>(&'a [u8]);

impl<'a> Part for CodesBehind<'a> {
    ghost use Rattle.shown_bytes.specs.TroubleCodes.{codes_behind};

    ghost text = { λ records. codes_behind records.0.now };

    fn say<S: TextSink>(self, out: &mut S) {
        let mut rest = self.0;
        'codes: while let [high, middle, low, status, others @ ..] = rest {
            say(out, (", ", CodeText(*high, *middle, *low, *status)));
            rest = others;
        }
    }
}

/// A code with what its status says.
#[derive(Clone, Copy)]
struct CodeText(u8, u8, u8, u8);

impl Part for CodeText {
    ghost use Rattle.shown_bytes.specs.TroubleCodes.{code_text};

    ghost text = { λ code. code_text code.0 code.1 code.2 code.3 };

    fn say<S: TextSink>(self, out: &mut S) {
        let CodeText(high, middle, low, status) = self;
        out.put(&trouble_code(high, middle, low));
        say(out, StatusText(status));
    }
}

/// The names of all bits of a status that are 1.
#[derive(Clone, Copy)]
struct StatusText(u8);

impl Part for StatusText {
    ghost use Rattle.shown_bytes.specs.TroubleCodes.{status_text};

    ghost text = { λ status. status_text status.0 };

    fn say<S: TextSink>(self, out: &mut S) {
        let status = self.0;
        say(
            out,
            (
                BitText(status, 0),
                BitText(status, 1),
                BitText(status, 2),
                BitText(status, 3),
                BitText(status, 4),
                BitText(status, 5),
                BitText(status, 6),
                BitText(status, 7),
            ),
        );
    }
}

/// The name of a bit of a status, below 8, where it is 1.
#[derive(Clone, Copy)]
struct BitText(u8, u8);

impl Part for BitText {
    ghost use Rattle.shown_bytes.specs.TroubleCodes.{bit_text};

    ghost text = { λ bit. bit_text bit.0 bit.1 };

    fn say<S: TextSink>(self, out: &mut S) {
        let BitText(status, bit) = self;
        say(
            out,
            When(is_set(status, bit), NameBehind(status_bit_name(bit))),
        );
    }
}

/// Whether a bit of a status is 1; of those from 8 on none is.
fn is_set(status: u8, bit: u8) -> bool
    ensures { result ≡ (bit_at status bit == 1) }
{
    bit < 8 && (status >> bit) % 2 == 1
}

/// A name behind a blank, if there is one.
#[derive(Clone, Copy)]
struct NameBehind(Option<&'static str>);

impl Part for NameBehind {
    ghost use Rattle.std.specs.Prelude.{option_map};
    ghost use Rattle.shown_bytes.specs.TroubleCodes.{name_behind};

    ghost text = { λ behind. name_behind (option_map (λ name. name.now) behind.0) };

    fn say<S: TextSink>(self, out: &mut S) {
        if let Some(name) = self.0 {
            say(out, (" ", name));
        }
    }
}
