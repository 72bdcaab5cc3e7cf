//! Items in the words of a technician.

ghost use Rattle.std.specs.Prelude.{◌≡◌};
ghost use Rattle.trace_pair.specs.ItemWords as Spec;

use crate::outcome::came_of;
use direction::Dir;
use pair_words::PartedService;
use shown_bytes::{MoreWords, Piece, known_length};
use text_parts::{Either, Part, say};
use trace_io::TextSink;
use trace_text::{Number, Sender};
use uds_exchange::Item;
use uds_message::{TesterKind, sid, tester_kind};
use uds_rules::Rules;

/// How many bytes of a message are told in a sentence.
const TOLD: usize = 8;

/// What an item is, and how it begins.
#[derive(Clone, Copy)]
pub(crate) struct ItemTitle<'a>(pub &'a Rules, pub Item<'a>);

impl<'a> Part for ItemTitle<'a> {
    ghost use Rattle.uds_exchange.specs.ItemSeen.{item_value};
    ghost use Rattle.trace_pair.specs.ItemWords.{item_title};

    ghost text = { λ title. item_title title.0.now (item_value title.1) };

    fn say<S: TextSink>(self, out: &mut S) {
        let ItemTitle(rules, item) = self;
        match item {
            Item::Exchange { request, .. } => say(
                out,
                (
                    "<b>",
                    PartedService(sid(request)),
                    "</b> ",
                    FirstBytes(rules, request),
                ),
            ),
            Item::Stray { dir, bytes } => {
                if keeps_alive(dir, bytes) {
                    say(out, ("<b>keep-alive</b> ", FirstBytes(rules, bytes)));
                } else {
                    say(
                        out,
                        (
                            "<b>stray</b> <i>from the ",
                            Sender(dir),
                            "</i> ",
                            FirstBytes(rules, bytes),
                        ),
                    );
                }
            }
        }
    }
}

/// Whether a stray is a keep-alive: the tester sent it, and it is one.
pub(crate) fn keeps_alive(dir: Dir, bytes: &[u8]) -> bool
    ensures { result ≡ Spec.keeps_alive dir bytes.now }
{
    match dir {
        Dir::Tester => matches!(tester_kind(bytes), TesterKind::KeepAlive),
        Dir::Unit => false,
    }
}

/// The first bytes of a message, and how many more it has.
#[derive(Clone, Copy)]
struct FirstBytes<'a>(&'a Rules, &'a [u8]);

impl<'a> Part for FirstBytes<'a> {
    ghost use Rattle.trace_pair.specs.ItemWords.{first_bytes};

    ghost text = { λ bytes. first_bytes bytes.0.now bytes.1.now };

    fn say<S: TextSink>(self, out: &mut S) {
        let FirstBytes(rules, bytes) = self;
        let first = Piece {
            rules,
            message: bytes,
            place: 0,
            count: TOLD,
        };
        let more = bytes.len().saturating_sub(TOLD) as u64;
        say(
            out,
            (
                "<code>",
                first,
                "</code>",
                Either(
                    bytes.len() <= TOLD,
                    (),
                    (
                        MoreFront(known_length(rules, bytes)),
                        Number(more),
                        MoreWords(more),
                        "</i>",
                    ),
                ),
            ),
        );
    }
}

/// What stands before how many more bytes a message has: at least so many, where it is not known how many it has.
#[derive(Clone, Copy)]
struct MoreFront(Option<u64>);

impl Part for MoreFront {
    ghost use Rattle.trace_pair.specs.ItemWords.{more_front};

    ghost text = { λ more. more_front more.0 };

    fn say<S: TextSink>(self, out: &mut S) {
        match self.0 {
            Some(_known) => say(out, " <i>and "),
            None => say(out, " <i>and at least "),
        }
    }
}

/// What came of an item, behind its title, where it is an exchange.
#[derive(Clone, Copy)]
pub(crate) struct OutcomeNote<'a>(pub Item<'a>);

impl<'a> Part for OutcomeNote<'a> {
    ghost use Rattle.uds_exchange.specs.ItemSeen.{item_value};
    ghost use Rattle.trace_pair.specs.ItemWords.{outcome_note};

    ghost text = { λ outcome. outcome_note (item_value outcome.0) };

    fn say<S: TextSink>(self, out: &mut S) {
        match self.0 {
            Item::Exchange { request, answer } => say(out, (": ", came_of(request, answer))),
            Item::Stray { .. } => {}
        }
    }
}
