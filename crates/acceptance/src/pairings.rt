//! What lists of messages mean, and the order in which they are put. No expected value comes from the program.

use crate::rows::{
    assert_marked, assert_text, digits_of, line_marked, lines_of, message_spelled, number_of,
    push_message, rows_of, shown,
};
use direction::Dir::{self, Tester, Unit};
use std::alloc::{AllocError, Global};
use std::process::Abort;
use std::test::Fail;
use uds_exchange::{
    Decider, Item, ItemSink, Judge, Meaning, MessageSink, OrderFault, Orderer, Pairing,
};

/// Lists of messages, and the items that they mean.
const MEANINGS: &str = "\
no message

a late answer is a stray of the next request
message Tester#22F190
message Tester#1902FF
message Unit#62F19041
message Unit#5902FF
item exchange 22F190 unanswered
item exchange 1902FF -> 5902FF
item stray Unit#62F19041

a keep-alive between request and answer
message Tester#22F190
message Tester#3E80
message Unit#62F19041
item exchange 22F190 -> 62F19041
item stray Tester#3E80

a keep-alive alone
message Tester#3E80
item stray Tester#3E80

a suppressed request without answer
message Tester#1083
item exchange 1083 unanswered

a suppressed request with a pending reply and an answer
message Tester#1083
message Unit#7F1078
message Unit#5003
item exchange 1083 -> 5003

a pending reply before the answer and one behind it
message Tester#22F190
message Tester#3E80
message Unit#7F2278
message Unit#62F19041
message Unit#7F2278
item exchange 22F190 -> 62F19041
item stray Tester#3E80
item stray Unit#7F2278

two pending replies
message Tester#22F190
message Unit#7F2278
message Unit#7F2278
message Unit#7F2231
item exchange 22F190 -> 7F2231

a pending reply without answer
message Tester#22F190
message Unit#7F2278
item exchange 22F190 unanswered

pending replies of four bytes and for another service
message Tester#22F190
message Unit#7F227800
message Unit#7F1978
item exchange 22F190 unanswered
item stray Unit#7F227800
item stray Unit#7F1978

a negative response of four bytes
message Tester#22F190
message Unit#7F223100
message Unit#7F2231
item exchange 22F190 -> 7F2231
item stray Unit#7F223100

the answer to TesterPresent behind a keep-alive
message Tester#3E00
message Tester#3E80
message Unit#7E00
item exchange 3E00 -> 7E00
item stray Tester#3E80

almost keep-alives
message Tester#3E8000
message Tester#3E
item exchange 3E8000 unanswered
item exchange 3E unanswered

a request without positive response
message Tester#3F
message Unit#7F
message Unit#7F3F
message Unit#7F2211
message Unit#7F3F78
message Unit#7F3F11
item exchange 3F -> 7F3F11
item stray Unit#7F
item stray Unit#7F3F
item stray Unit#7F2211

requests by bit 6 alone
message Tester#BA
message Unit#7FBA99
message Tester#00
message Unit#40
message Tester#62F1
message Tester#FF
item exchange BA -> 7FBA99
item exchange 00 -> 40
item stray Tester#62F1
item stray Tester#FF

strays before the first request
message Unit#62F190
message Tester#3E80
message Unit#7F2278
message Tester#22F190
item stray Unit#62F190
item stray Tester#3E80
item stray Unit#7F2278
item exchange 22F190 unanswered

strays of an unanswered request stay before the next one
message Tester#22F190
message Unit#5902
message Tester#1902FF
item exchange 22F190 unanswered
item stray Unit#5902
item exchange 1902FF unanswered

a second answer
message Tester#22F190
message Unit#62F19041
message Unit#62F19042
item exchange 22F190 -> 62F19041
item stray Unit#62F19042

an answer of the tester
message Tester#22F190
message Tester#62F190
item exchange 22F190 unanswered
item stray Tester#62F190

empty messages
message Tester#
message Tester#22
message Unit#
message Tester#
item stray Tester#
item exchange 22 unanswered
item stray Unit#
item stray Tester#
";

#[test]
fn each_list_has_the_meaning_of_its_row(rt: HostRuntime) -> Result<(), Fail> {
    let alloc = rt.alloc();
    for row in rows_of(MEANINGS) {
        let meaning = meaning_of(alloc, row, "message ")?;
        let items = items_text(alloc, &meaning)?;
        assert_marked(&rt, alloc, row, "item", &items)?;
        assert!(rt;
            meaning.is_empty() == items.is_empty() && meaning.item(meaning.len()).is_none()
        );
        let mut sink = Recorder::new(alloc, 10);
        steps_of(alloc, row, &mut sink)?;
        assert_text(&rt, row, &sink.messages, &in_order(alloc, &meaning)?);
    }
    Ok(())
}

/// What the messages in the lines of a row with this mark mean.
pub(crate) fn meaning_of(alloc: Global, row: &str, mark: &str) -> Result<Meaning, Fail> {
    let mut pairing = Pairing::new(alloc);
    for line in lines_of(row) {
        if let Some(message) = line.strip_prefix(mark) {
            let (dir, bytes) = message_spelled(alloc, message)?;
            pairing.take(dir, &bytes)?;
        }
    }
    Ok(pairing.finish())
}

/// Tells the items of a meaning, each in a line.
pub(crate) fn items_text(alloc: Global, meaning: &Meaning) -> Result<String, AllocError> {
    let mut text = String::new(alloc);
    for i in 0..meaning.len() {
        if let Some(item) = meaning.item(i) {
            push_item(alloc, &mut text, item)?;
        }
    }
    Ok(text)
}

fn push_item(alloc: Global, text: &mut String, item: Item<'_>) -> Result<(), AllocError> {
    match item {
        Item::Exchange { request, answer } => {
            text.push_str("exchange ")?;
            text.push_str(&digits_of(alloc, request)?)?;
            if let Some(answer) = answer {
                text.push_str(" -> ")?;
                text.push_str(&digits_of(alloc, answer)?)?;
                text.push_str("\n")
            } else {
                text.push_str(" unanswered\n")
            }
        }
        Item::Stray { dir, bytes } => {
            text.push_str("stray ")?;
            push_message(alloc, text, dir, bytes)
        }
    }
}

/// Lists of messages, and how what has taken them is shown.
const SHOWN: &str = "\
no message
pairing Pairing { alloc: Global, items: [], open_sid: None, last: 0 }
meaning Meaning { items: [] }
orderer Orderer { has_failed: false, open_sid: None, held: Held { extents: [], bytes: [] } }
decider Decider { alloc: Global, request: None, held: Held { extents: [], bytes: [] } }

messages behind an open request
message Unit#7F
message Tester#22F190
message Tester#3E80
message Unit#5902FF
message Unit#
pairing Pairing { alloc: Global, items: [Stray { dir: Unit, bytes: [127] }, Exchange { request: [34, 241, 144], answer: None }, \
Stray { dir: Tester, bytes: [62, 128] }, Stray { dir: Unit, bytes: [89, 2, 255] }, Stray { dir: Unit, bytes: [] }], \
open_sid: Some(34), last: 1 }
meaning Meaning { items: [Stray { dir: Unit, bytes: [127] }, Exchange { request: [34, 241, 144], answer: None }, \
Stray { dir: Tester, bytes: [62, 128] }, Stray { dir: Unit, bytes: [89, 2, 255] }, Stray { dir: Unit, bytes: [] }] }
orderer Orderer { has_failed: false, open_sid: Some(34), held: Held { extents: [Extent { dir: Tester, len: 2 }, \
Extent { dir: Unit, len: 3 }, Extent { dir: Unit, len: 0 }], bytes: [62, 128, 89, 2, 255] } }
decider Decider { alloc: Global, request: Some([34, 241, 144]), held: Held { extents: [Extent { dir: Tester, len: 2 }, \
Extent { dir: Unit, len: 3 }, Extent { dir: Unit, len: 0 }], bytes: [62, 128, 89, 2, 255] } }

an answer
message Tester#22F190
message Tester#3E80
message Unit#62F19041
pairing Pairing { alloc: Global, items: [Exchange { request: [34, 241, 144], answer: Some([98, 241, 144, 65]) }, \
Stray { dir: Tester, bytes: [62, 128] }], open_sid: None, last: 0 }
meaning Meaning { items: [Exchange { request: [34, 241, 144], answer: Some([98, 241, 144, 65]) }, \
Stray { dir: Tester, bytes: [62, 128] }] }
orderer Orderer { has_failed: false, open_sid: None, held: Held { extents: [], bytes: [] } }
decider Decider { alloc: Global, request: None, held: Held { extents: [], bytes: [] } }
";

#[test]
fn what_has_taken_messages_is_shown_by_them(rt: HostRuntime) -> Result<(), Fail> {
    let alloc = rt.alloc();
    for row in rows_of(SHOWN) {
        let mut pairing = Pairing::new(alloc);
        let mut orderer = Orderer::new(alloc);
        let mut decider = Decider::new(alloc);
        let mut judge = Judge::new();
        for line in lines_of(row) {
            if let Some(message) = line.strip_prefix("message ") {
                let (dir, bytes) = message_spelled(alloc, message)?;
                pairing.take(dir, &bytes)?;
                orderer.take(dir, &bytes, &mut Recorder::new(alloc, 10))?;
                decider.take(judge.take(dir, &bytes), &mut Unheard)?;
            }
        }
        assert_text(
            &rt,
            row,
            &shown(alloc, &pairing)?,
            line_marked(row, "pairing"),
        );
        assert_text(
            &rt,
            row,
            &shown(alloc, &pairing.finish())?,
            line_marked(row, "meaning"),
        );
        assert_text(
            &rt,
            row,
            &shown(alloc, &orderer)?,
            line_marked(row, "orderer"),
        );
        assert_text(
            &rt,
            row,
            &shown(alloc, &decider)?,
            line_marked(row, "decider"),
        );
    }
    Ok(())
}

/// Takes items, and keeps nothing.
#[derive(Drop)]
struct Unheard;

impl ItemSink for Unheard {
    ghost use Rattle.std.specs.Prelude.{⊤};

    ghost takes = { λ old item new. ⊤ };

    fn put(&mut self, _item: Item<'_>) {}
}

/// Two lists, and the place at which their meanings first differ.
const DIFFERENCES: &str = "\
two empty lists
place None

the same list
left Tester#22F190
left Unit#62F19041
right Tester#22F190
right Unit#62F19041
place None

a keep-alive before the answer and after it
left Tester#22F190
left Tester#3E80
left Unit#62F19041
right Tester#22F190
right Unit#62F19041
right Tester#3E80
place None

another answer
left Tester#22F190
left Unit#62F19041
right Tester#22F190
right Unit#62F19042
place Some(0)

no answer
left Tester#3E80
left Tester#22F190
left Unit#62F19041
right Tester#3E80
right Tester#22F190
place Some(1)

a meaning that ends
left Tester#3E80
left Tester#22F190
left Tester#3E80
right Tester#3E80
place Some(1)

an empty one
right Tester#3E80
place Some(0)
";

#[test]
fn meanings_differ_first_where_the_row_says(rt: HostRuntime) -> Result<(), Fail> {
    let alloc = rt.alloc();
    for row in rows_of(DIFFERENCES) {
        let left = meaning_of(alloc, row, "left ")?;
        let right = meaning_of(alloc, row, "right ")?;
        let place = line_marked(row, "place");
        assert_text(
            &rt,
            row,
            &shown(alloc, &left.first_difference(&right))?,
            place,
        );
        assert_text(
            &rt,
            row,
            &shown(alloc, &right.first_difference(&left))?,
            place,
        );
    }
    Ok(())
}

/// Keeps up to a number of messages, as a text.
#[derive(Drop)]
struct Recorder {
    alloc: Global,
    messages: String,
    put: u64,
    room: u64,
}

impl Recorder {
    fn new(alloc: Global, room: u64) -> Recorder {
        Recorder {
            alloc,
            messages: String::new(alloc),
            put: 0,
            room,
        }
    }
}

impl MessageSink for Recorder {
    ghost use Rattle.std.specs.Prelude.{⊤};

    type Fault = &'static str;

    ghost after_ok = { λ old dir message new. ⊤ };

    ghost after_err = { λ old dir message fault new. ⊤ };

    fn put(&mut self, dir: Dir, message: &[u8]) -> Result<(), &'static str> {
        if self.put >= self.room {
            return Err("full");
        }
        self.put = self.put.saturating_add(1);
        push_message(self.alloc, &mut self.messages, dir, message).map_err(|_| "memory")
    }
}

/// Messages, and a sink with room for a number of them; after each message the bytes held and the number of messages put, or
/// why there is none, and the same at the end; and the messages as they were put.
const STEPS: &str = "\
a pending reply before the answer and one after it
room 10
message Tester#22F190
step 0 bytes held, 1 put
message Tester#3E80
step 2 bytes held, 1 put
message Unit#7F2278
step 2 bytes held, 1 put
message Unit#62F19041
step 0 bytes held, 3 put
message Unit#7F2278
step 0 bytes held, 4 put
step 0 bytes held, 4 put
order Tester#22F190
order Unit#62F19041
order Tester#3E80
order Unit#7F2278

nothing is put after the sink has refused
room 1
message Tester#22F190
step 0 bytes held, 1 put
message Tester#3E80
step 2 bytes held, 1 put
message Unit#7F2278
step 2 bytes held, 1 put
message Unit#62F19041
step Sink(\"full\")
message Unit#7F2278
step Failed
step Failed
order Tester#22F190

a refusal at the end
room 1
message Tester#22F190
step 0 bytes held, 1 put
message Tester#3E80
step 2 bytes held, 1 put
step Sink(\"full\")
order Tester#22F190
";

#[test]
fn messages_are_put_as_soon_as_their_place_is_known(rt: HostRuntime) -> Result<(), Fail> {
    let alloc = rt.alloc();
    for row in rows_of(STEPS) {
        let mut sink = Recorder::new(alloc, number_of(line_marked(row, "room"))?);
        let steps = steps_of(alloc, row, &mut sink)?;
        assert_marked(&rt, alloc, row, "step", &steps)?;
        assert_marked(&rt, alloc, row, "order", &sink.messages)?;
    }
    Ok(())
}

/// Tells what is answered to each message of a row, and at the end.
fn steps_of(alloc: Global, row: &str, sink: &mut Recorder) -> Result<String, Fail> {
    let mut steps = String::new(alloc);
    let mut orderer = Orderer::new(alloc);
    for line in lines_of(row) {
        if let Some(message) = line.strip_prefix("message ") {
            let (dir, bytes) = message_spelled(alloc, message)?;
            let answer = orderer.take(dir, &bytes, sink);
            push_step(alloc, &mut steps, answer, orderer.held(), sink.put)?;
        }
    }
    let answer = orderer.finish(sink);
    push_step(alloc, &mut steps, answer, 0, sink.put)?;
    Ok(steps)
}

fn push_step(
    alloc: Global,
    text: &mut String,
    answer: Result<(), OrderFault<&'static str>>,
    held: u64,
    put: u64,
) -> Result<(), AllocError> {
    match answer {
        Ok(()) => text.push_str(&format!(in alloc; "{held} bytes held, {put} put\n")?),
        Err(fault) => {
            text.push_str(&shown(alloc, &fault)?)?;
            text.push_str("\n")
        }
    }
}

/// Tells the messages of a meaning in order.
fn in_order(alloc: Global, meaning: &Meaning) -> Result<String, AllocError> {
    let mut text = String::new(alloc);
    for i in 0..meaning.len() {
        if let Some(item) = meaning.item(i) {
            push_in_order(alloc, &mut text, item)?;
        }
    }
    Ok(text)
}

fn push_in_order(alloc: Global, text: &mut String, item: Item<'_>) -> Result<(), AllocError> {
    match item {
        Item::Exchange { request, answer } => {
            push_message(alloc, text, Tester, request)?;
            if let Some(answer) = answer {
                push_message(alloc, text, Unit, answer)?;
            }
            Ok(())
        }
        Item::Stray { dir, bytes } => push_message(alloc, text, dir, bytes),
    }
}
