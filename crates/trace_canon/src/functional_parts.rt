//! The functional identifier of a credit line in the three styles, where the line has one.
use text_parts::{Part, say};
use trace_io::TextSink;
use trace_text::Verbatim;
use uds_find::CreditLine;

/// The option by which other commands take it.
#[derive(Clone, Copy)]
pub(crate) struct FunctionalOption<'a>(pub &'a CreditLine);

impl<'a> Part for FunctionalOption<'a> {
    ghost use Rattle.trace_canon.specs.CreditLines.{functional_option};

    ghost text = { λ part. functional_option part.0.now.functional };

    fn say<S: TextSink>(self, out: &mut S) {
        if let Some(id) = &self.0.functional {
            say(out, (" --functional ", Verbatim(id.as_slice())));
        }
    }
}

/// The member of an object, behind another one.
#[derive(Clone, Copy)]
pub(crate) struct FunctionalMember<'a>(pub &'a CreditLine);

impl<'a> Part for FunctionalMember<'a> {
    ghost use Rattle.trace_canon.specs.CreditLines.{functional_mark};

    ghost text = { λ part. functional_mark part.0.now.functional };

    fn say<S: TextSink>(self, out: &mut S) {
        if let Some(id) = &self.0.functional {
            say(out, (",\"functional\":\"", Verbatim(id.as_slice()), "\""));
        }
    }
}

/// The key of a unit.
#[derive(Clone, Copy)]
pub(crate) struct FunctionalKey<'a>(pub &'a CreditLine);

impl<'a> Part for FunctionalKey<'a> {
    ghost use Rattle.trace_canon.specs.CreditLines.{functional_key};

    ghost text = { λ part. functional_key part.0.now.functional };

    fn say<S: TextSink>(self, out: &mut S) {
        if let Some(id) = &self.0.functional {
            say(out, ("functional = \"", Verbatim(id.as_slice()), "\"\n"));
        }
    }
}
