//! Parts that stand where something is so, and lists of parts.
use crate::part::Part;
use trace_io::TextSink;

/// A part that stands where something is so: `("item ", Number(12), When(is_open, ", open"))`.
#[derive(Clone, Copy)]
pub struct When<P>(pub bool, pub P);

impl<P: Part> Part for When<P> {
    ghost use Rattle.std.specs.Prelude.{[], if◌then◌else◌};

    ghost text = { λ part. if part.0 then P.text part.1 else [] };

    #[inline(always)]
    fn say<S: TextSink>(self, out: &mut S) {
        if self.0 {
            self.1.say(out);
        }
    }
}

/// The first part where something is so, and the second where it is not: `Either(count == 1, " byte", " bytes")`.
#[derive(Clone, Copy)]
pub struct Either<P, Q>(pub bool, pub P, pub Q);

impl<P: Part, Q: Part> Part for Either<P, Q> {
    ghost use Rattle.std.specs.Prelude.{if◌then◌else◌};

    ghost text = { λ part. if part.0 then P.text part.1 else Q.text part.2 };

    #[inline(always)]
    fn say<S: TextSink>(self, out: &mut S) {
        if self.0 {
            self.1.say(out);
        } else {
            self.2.say(out);
        }
    }
}

/// A part that is there, or nothing.
impl<P: Part> Part for Option<P> {
    ghost use Rattle.text_parts.specs.Parts.{text_if_some};

    ghost text = { λ part. text_if_some P.text part };

    #[inline(always)]
    fn say<S: TextSink>(self, out: &mut S) {
        if let Some(part) = self {
            part.say(out);
        }
    }
}

/// Parts of one type, one after another, where their number is not known before.
#[derive(Clone, Copy)]
pub struct Each<'a, P>(pub &'a [P]);

impl<'a, P: Part> Part for Each<'a, P> {
    ghost use Rattle.std.specs.List.{flat_map};

    ghost text = { λ parts. flat_map P.text parts.0.now };

    fn say<S: TextSink>(self, out: &mut S) {
        'parts: for part in self.0 {
            part.say(out);
        }
    }
}
