//! What takes messages in order.

ghost use Rattle.std.specs.Prelude.{ℕ, List, OnOk, IfErr};
ghost use Rattle.direction.specs.declared.Dir.{Dir};

use direction::Dir;

/// What takes messages in order. An implementation says by two ghost members which values of the sink may follow an
/// `Ok` of [`put`](MessageSink::put), and which an `Err`.
pub trait MessageSink {
    /// Why a message was not taken.
    type Fault;

    ghost after_ok: { Self → Dir → List ℕ → Self → Type 0 };

    ghost after_err: { Self → Dir → List ℕ → Self.Fault → Self → Type 0 };

    /// Takes the next message.
    fn put(&mut self, dir: Dir, message: &[u8]) -> Result<(), Self::Fault>
        ensures ok { OnOk result (after_ok self.old dir message.now self.new) }
        ensures err { IfErr result (λ e. after_err self.old dir message.now e self.new) };
}

/// The fault of a sink that takes all that is put: there is none.
#[derive(Clone, Copy)]
pub enum NoFault {}
