//! Messages that wait behind the open request, with who sent them.

ghost use Rattle.std.specs.Prelude.{◌≡◌, ◌++◌, ◌∷◌, [], OnOk, OnErr, IfErr, sum_by};
ghost use Rattle.uds_exchange.specs.MessageSink.{Puts, Fails};
ghost use Rattle.uds_exchange.specs.Order.{message_length};
ghost use Rattle.uds_exchange.specs.proving.HeldMessages.{AreHeldIn, messages_at, span_of};

use crate::message_sink::MessageSink;
use crate::messages::{Messages, Span};
use direction::Dir;
use std::alloc::{AllocError, Global};
use std::marker::Model;

/// Messages that wait behind the open request, in order.
#[derive(Drop)]
pub(crate) struct HeldMessages {
    /// Of each message who sent it, and where its bytes lie.
    pub(crate) places: Vec<HeldMessage>,
    /// The bytes of all.
    pub(crate) messages: Messages,
    /// The sum of the messages' lengths.
    total: usize,
}

/// The side of a message, and where its bytes lie, in sixteen bytes of memory: with a [`Span`] inside it would be 24.
#[derive(Clone, Copy)]
pub(crate) struct HeldMessage {
    pub(crate) len: usize,
    block: u32,
    start: u16,
    pub(crate) dir: Dir,
}

impl Model for HeldMessages {
    ghost use Rattle.std.specs.Prelude.{List};
    ghost use Rattle.direction.specs.Dir.{Message};
    ghost use Rattle.uds_exchange.specs.proving.HeldMessages.{messages_at, AreHeldAndSummed};

    ghost Value = { List Message };

    ghost view = { λ h. messages_at h.messages h.places.items };

    ghost invariant = { λ h. AreHeldAndSummed h.messages h.places.items h.total };
}

impl HeldMessage {
    /// Where its bytes lie.
    pub(crate) fn span(self) -> Span
        ensures { result ≡ span_of self }
    {
        Span {
            len: self.len,
            block: self.block,
            start: self.start,
        }
    }
}

impl HeldMessages {
    /// No message. It takes no memory.
    pub(crate) fn new(alloc: Global) -> HeldMessages
        ensures { result ≡ [] }
    {
        HeldMessages {
            places: Vec::new(alloc),
            messages: Messages::new(alloc),
            total: 0,
        }
    }

    /// The sum of the messages' lengths.
    pub(crate) fn total_len(&self) -> usize
        ensures { result ≡ sum_by message_length self.now }
    {
        self.total
    }

    /// One message more, at the end.
    pub(crate) fn push(&mut self, dir: Dir, message: &[u8]) -> Result<(), AllocError>
        ensures ok { OnOk result (self.new ≡ self.old ++ (dir, message.now) ∷ []) }
        ensures err { OnErr result (self.new ≡ self.old) }
    {
        // No memory holds more bytes than a number tells.
        let Some(total) = self.total.checked_add(message.len()) else {
            return Err(AllocError);
        };
        self.places.reserve(1)?;
        let span = self.messages.append(message)?;
        self.places.push_reserved(HeldMessage {
            len: span.len,
            block: span.block,
            start: span.start,
            dir,
        });
        self.total = total;
        Ok(())
    }

    /// Drops all messages, and keeps the memory of the first block and of the lists.
    pub(crate) fn clear(&mut self)
        ensures { self.new ≡ [] }
    {
        self.places.clear();
        self.messages.clear();
        self.total = 0;
    }

    /// Puts the messages in order.
    pub(crate) fn put_all<S: MessageSink>(&self, sink: &mut S) -> Result<(), S::Fault>
        ensures ok { OnOk result (Puts S.after_ok sink.old self.now sink.new) }
        ensures err { IfErr result (λ e. Fails S.after_ok S.after_err sink.old self.now e sink.new) }
    {
        put_each(self.places.as_slice(), &self.messages, sink)
    }
}

/// Puts the messages that are held.
fn put_each<S: MessageSink>(
    held: &[HeldMessage],
    messages: &Messages,
    sink: &mut S,
) -> Result<(), S::Fault>
    requires { AreHeldIn messages.now held.now }
    ensures ok { OnOk result (Puts S.after_ok sink.old (messages_at messages.now held.now) sink.new) }
    ensures err { IfErr result (λ e. Fails S.after_ok S.after_err sink.old
        (messages_at messages.now held.now) e sink.new) }
{
    for one in held {
        sink.put(one.dir, messages.message(one.span()))?;
    }
    Ok(())
}
