//! The calls, each over every session.

use can_log::{Frame, Id};
use direction::Dir;
use isotp_receive::{Channel, Pair, Verdict};
use std::alloc::Global;
use std::io::{Error, ErrorKind, Result as IoResult, Write};
use std::test::Fail;
use trace_canon::Comparison;
use trace_difference::in_memory::CountedDifference;
use trace_io::{Reading, Writing};
use trace_log::{CompareFault, Fault, Summary};
use trace_text::{CreditStyle, ItemStyle, Notation, Numbering};
use tried_sessions::{Message, OF_MESSAGES, Page, SESSIONS, Session, sides};
use uds_exchange::{
    Decider, Item, ItemSink, Judge, Meaning, MessageSink, OrderFault, Orderer, Pairing,
};

/// How often a call was made until it answered: again, where it was refused memory.
#[derive(Clone, Copy)]
enum Made {
    Once,
    Again,
}

/// Lines in words, with their numbers.
const NUMBERED: ItemStyle = ItemStyle {
    numbering: Numbering::Shown,
    notation: Notation::Text,
};

const TRIES: [Made; 2] = [Made::Once, Made::Again];

/// The end of the counts of two sessions that are the same.
const NO_CHANGE: &[u8] = b"\"removed\":0,\"added\":0,\"changed\":0,\"shortest\":true}\n";

const REFUSED_AGAIN: &str = "refused again";

/// Ends a test with the session over which its call was refused memory.
fn tell(made: Made, session: Session) -> Result<(), Fail> {
    match made {
        Made::Once => Ok(()),
        Made::Again => Err(session.name)?,
    }
}

#[test]
fn pair_accept(rt: HostRuntime) -> Result<(), Fail> {
    for session in SESSIONS {
        tell(received(rt.alloc(), session)?, session)?;
    }
    Ok(())
}

/// Receives the frames of the session. Where one was refused memory, the message of its side is lost, and those of the other
/// side are still delivered.
fn received(alloc: Global, session: Session) -> Result<Made, Fail> {
    let mut pair = Pair::new(alloc);
    let mut sink = InOrder::new(session.messages);
    let mut made = Made::Once;
    for (dir, kind, data) in session.frames {
        let frame = Frame::new(Id::Std(0x7E8), *kind, data).ok_or("no frame")?;
        match pair.accept(0, 0, Channel::of(*dir), &frame) {
            Err(_refused) => {
                made = Made::Again;
                sink.lost = Some(*dir);
            }
            Ok(event) => {
                if let Verdict::Message(bytes) = event.verdict {
                    sink.put(*dir, bytes)?;
                }
            }
        }
    }
    sink.end()?;
    Ok(made)
}

#[test]
fn pairing_take(rt: HostRuntime) -> Result<(), Fail> {
    for session in OF_MESSAGES {
        tell(paired(rt.alloc(), session)?, session)?;
    }
    Ok(())
}

/// Pairs the messages of the session. A message that was refused memory is taken again.
fn paired(alloc: Global, session: Session) -> Result<Made, Fail> {
    let mut pairing = Pairing::new(alloc);
    let mut made = Made::Once;
    for (dir, message) in session.messages {
        if pairing.take(*dir, message).is_err() {
            made = Made::Again;
            pairing.take(*dir, message)?;
        }
    }
    assert_means(&pairing.finish(), session)?;
    Ok(made)
}

#[test]
fn orderer_take(rt: HostRuntime) -> Result<(), Fail> {
    for session in OF_MESSAGES {
        tell(ordered(rt.alloc(), session)?, session)?;
    }
    Ok(())
}

/// Orders the messages of the session. A message that was refused memory is taken again.
fn ordered(alloc: Global, session: Session) -> Result<Made, Fail> {
    let mut orderer = Orderer::new(alloc);
    let mut sink = InOrder::new(session.ordered);
    let mut made = Made::Once;
    for (dir, message) in session.messages {
        let answer = orderer.take(*dir, message, &mut sink);
        if answer == Err(OrderFault::Memory) {
            made = Made::Again;
            orderer.take(*dir, message, &mut sink)?;
        } else {
            answer?;
        }
    }
    orderer.finish(&mut sink)?;
    sink.end()?;
    Ok(made)
}

#[test]
fn decider_take(rt: HostRuntime) -> Result<(), Fail> {
    for session in OF_MESSAGES {
        tell(decided(rt.alloc(), session)?, session)?;
    }
    Ok(())
}

/// Decides the items of the session. A message that was refused memory is taken again.
fn decided(alloc: Global, session: Session) -> Result<Made, Fail> {
    let mut decider = Decider::new(alloc);
    let mut judge = Judge::new();
    let mut sink = AsItems {
        messages: InOrder::new(session.ordered),
        are_next: true,
    };
    let mut made = Made::Once;
    for (dir, message) in session.messages {
        let judged = judge.take(*dir, message);
        if decider.take(judged, &mut sink).is_err() {
            made = Made::Again;
            decider.take(judged, &mut sink)?;
        }
    }
    decider.finish(&mut sink);
    sink.end()?;
    Ok(made)
}

/// What is still to be put, by items. Whether each was the next one is kept, since a sink of items can't refuse one.
#[derive(Drop)]
struct AsItems {
    messages: InOrder,
    are_next: bool,
}

impl AsItems {
    fn end(&self) -> Result<(), Fail> {
        if self.are_next {
            self.messages.end()
        } else {
            Err("another item than the next")?
        }
    }
}

impl ItemSink for AsItems {
    ghost use Rattle.std.specs.Prelude.{⊤};

    ghost takes = { λ old item new. ⊤ };

    fn put(&mut self, item: Item<'_>) {
        self.are_next = self.are_next && put_item(&mut self.messages, item).is_ok();
    }
}

#[test]
fn meaning_of(rt: HostRuntime) -> Result<(), Fail> {
    for session in SESSIONS {
        tell(meant(rt.alloc(), session)?, session)?;
    }
    Ok(())
}

fn meant(alloc: Global, session: Session) -> Result<Made, Fail> {
    for made in TRIES {
        match meaning_in(alloc, session.log)? {
            Err(Fault::Memory) => {}
            answer => {
                assert_means(&answer?, session)?;
                return Ok(made);
            }
        }
    }
    Err(REFUSED_AGAIN)?
}

/// What a log means. Like each call below it promises nothing, so that no proof of a caller weighs what the call in it promises.
fn meaning_in(alloc: Global, log: &[u8]) -> Result<Result<Meaning, Fault>, Fail> {
    Ok(trace_canon::meaning_of(alloc, &sides()?, &mut Reading::new(log)))
}

/// A call whose whole text is known.
#[derive(Clone, Copy)]
enum Call {
    Normalise,
    List,
    Find,
}

/// What a call answers over a log, and what is left of the text that it has to write.
fn answer_of(
    alloc: Global,
    call: Call,
    log: &[u8],
    text: &'static [u8],
) -> Result<(Result<Summary, Fault>, Rest), Fail> {
    let config = sides()?;
    let (mut reader, mut writer) = (Reading::new(log), Writing::new(Rest { of: text }));
    let answer = match call {
        Call::Normalise => trace_canon::normalise(alloc, &config, &mut reader, &mut writer),
        Call::List => trace_canon::list(alloc, &config, NUMBERED, &mut reader, &mut writer),
        Call::Find => {
            let style = CreditStyle::Lines(Notation::Text);
            trace_canon::find(alloc, &config, style, &mut reader, &mut writer)
        }
    };
    Ok((answer, writer.into_inner()))
}

/// Makes a call over a log, which writes this text.
fn written(alloc: Global, call: Call, log: &[u8], text: &'static [u8]) -> Result<Made, Fail> {
    for made in TRIES {
        let (answer, rest) = answer_of(alloc, call, log, text)?;
        if answer != Err(Fault::Memory) {
            answer?;
            rest.end()?;
            return Ok(made);
        }
    }
    Err(REFUSED_AGAIN)?
}

#[test]
fn normalise(rt: HostRuntime) -> Result<(), Fail> {
    for session in SESSIONS {
        let made = written(rt.alloc(), Call::Normalise, session.log, session.canonical)?;
        tell(made, session)?;
    }
    Ok(())
}

#[test]
fn list(rt: HostRuntime) -> Result<(), Fail> {
    for session in SESSIONS {
        let made = written(rt.alloc(), Call::List, session.log, session.listed)?;
        tell(made, session)?;
    }
    Ok(())
}

#[test]
fn find(rt: HostRuntime) -> Result<(), Fail> {
    for session in SESSIONS {
        let made = written(rt.alloc(), Call::Find, session.log, session.found)?;
        tell(made, session)?;
    }
    Ok(())
}

#[test]
fn explain(rt: HostRuntime) -> Result<(), Fail> {
    for session in SESSIONS {
        tell(explained(rt.alloc(), session)?, session)?;
    }
    Ok(())
}

/// Explains a session. Where that was refused memory, a front of the text was written.
fn explained(alloc: Global, session: Session) -> Result<Made, Fail> {
    let mut begun = Page::new();
    for made in TRIES {
        let (answer, text) = explanation_of(alloc, session.log)?;
        if answer != Err(Fault::Memory) {
            answer?;
            text.assert_begins_with(begun.bytes())?;
            text.assert_begins_with(session.explained)?;
            return Ok(made);
        }
        begun = text;
    }
    Err(REFUSED_AGAIN)?
}

fn explanation_of(alloc: Global, log: &[u8]) -> Result<(Result<Summary, Fault>, Page), Fail> {
    let (mut reader, mut writer) = (Reading::new(log), Writing::new(Page::new()));
    let answer = trace_canon::explain(alloc, &sides()?, Notation::Text, &mut reader, &mut writer);
    Ok((answer, writer.into_inner()))
}

#[test]
fn compare(rt: HostRuntime) -> Result<(), Fail> {
    for session in SESSIONS {
        tell(compared(rt.alloc(), session)?, session)?;
    }
    Ok(())
}

/// Compares the log of a session with its canonical log.
fn compared(alloc: Global, session: Session) -> Result<Made, Fail> {
    for made in TRIES {
        match comparison_of(alloc, session.log, session.canonical)? {
            Err(CompareFault::Left(Fault::Memory) | CompareFault::Right(Fault::Memory)) => {}
            Ok(Comparison::Same) => return Ok(made),
            _ => Err("not the same")?,
        }
    }
    Err(REFUSED_AGAIN)?
}

fn comparison_of(
    alloc: Global,
    left: &[u8],
    right: &[u8],
) -> Result<Result<Comparison, CompareFault>, Fail> {
    let (mut left, mut right) = (Reading::new(left), Reading::new(right));
    match trace_canon::compare(alloc, &sides()?, &mut left, &mut right) {
        Ok(compared) => Ok(Ok(compared.comparison)),
        Err(fault) => Ok(Err(fault)),
    }
}

#[test]
fn pair_difference(rt: HostRuntime) -> Result<(), Fail> {
    for session in SESSIONS {
        tell(differed(rt.alloc(), session)?, session)?;
    }
    Ok(())
}

/// Sets a session beside its canonical log. As objects even of that there is a text.
fn differed(alloc: Global, session: Session) -> Result<Made, Fail> {
    for made in TRIES {
        match difference_of(alloc, session.log, session.canonical)? {
            Err(CompareFault::Left(Fault::Memory) | CompareFault::Right(Fault::Memory)) => {}
            Ok(told) if told.text.as_slice().ends_with(NO_CHANGE) => return Ok(made),
            _ => Err("not the same")?,
        }
    }
    Err(REFUSED_AGAIN)?
}

fn difference_of(
    alloc: Global,
    left: &[u8],
    right: &[u8],
) -> Result<Result<CountedDifference, CompareFault>, Fail> {
    Ok(trace_difference::in_memory::pair_difference(
        alloc,
        &sides()?,
        Notation::Json,
        b"log",
        b"canonical",
        left,
        right,
    ))
}

/// What is still to be written of a text. Other bytes are refused, so that what was written is a front of it.
#[derive(Drop)]
struct Rest {
    of: &'static [u8],
}

impl Rest {
    fn end(&self) -> Result<(), Fail> {
        if self.of.is_empty() {
            Ok(())
        } else {
            Err("the text breaks off")?
        }
    }
}

impl Write for Rest {
    fn write(&mut self, piece: &[u8]) -> IoResult<usize> {
        match self.of.strip_prefix(piece) {
            Some(rest) => {
                self.of = rest;
                Ok(piece.len())
            }
            None => Err(Error::from(ErrorKind::InvalidData)),
        }
    }

    fn flush(&mut self) -> IoResult<()> {
        Ok(())
    }
}

/// What is still to be put of a list of messages. Another message than the next is refused; those of a side that lost one are
/// not waited for.
#[derive(Drop)]
struct InOrder {
    wanted: &'static [Message],
    put: usize,
    lost: Option<Dir>,
}

impl InOrder {
    fn new(wanted: &'static [Message]) -> InOrder {
        InOrder {
            wanted,
            put: 0,
            lost: None,
        }
    }

    /// The place of the next message that is waited for.
    fn next(&self) -> usize {
        let lost = self.lost;
        let rest = self.wanted.iter().skip(self.put);
        let skipped = rest.take_while(|(dir, _)| Some(*dir) == lost).count();
        self.put.saturating_add(skipped)
    }

    fn end(&self) -> Result<(), Fail> {
        if self.next() == self.wanted.len() {
            Ok(())
        } else {
            Err("a message is missing")?
        }
    }
}

impl MessageSink for InOrder {
    ghost use Rattle.std.specs.Prelude.{⊤};

    type Fault = &'static str;

    ghost after_ok = { λ old dir message new. ⊤ };

    ghost after_err = { λ old dir message fault new. ⊤ };

    fn put(&mut self, dir: Dir, message: &[u8]) -> Result<(), &'static str> {
        let next = self.next();
        match self.wanted.get(next) {
            Some((sender, bytes)) if *sender == dir && *bytes == message => {
                self.put = next.saturating_add(1);
                Ok(())
            }
            _ => Err("another message than the next"),
        }
    }
}

/// The items of a meaning have the messages of the session in order.
fn assert_means(meaning: &Meaning, session: Session) -> Result<(), Fail> {
    let mut sink = InOrder::new(session.ordered);
    for i in 0..meaning.len() {
        put_item(&mut sink, meaning.item(i).ok_or("an item is missing")?)?;
    }
    sink.end()
}

/// Puts the messages of an item.
fn put_item(sink: &mut InOrder, item: Item<'_>) -> Result<(), &'static str> {
    match item {
        Item::Exchange { request, answer } => {
            sink.put(Dir::Tester, request)?;
            if let Some(answer) = answer {
                sink.put(Dir::Unit, answer)?;
            }
            Ok(())
        }
        Item::Stray { dir, bytes } => sink.put(dir, bytes),
    }
}
