//! A rule of a profile, as a part of a text.
use crate::bytes::HexBytes;
use text_parts::{Either, Part, When, say};
use trace_io::TextSink;
use uds_rules::{Deed, Mask, Rule};

/// A rule, as a profile has it, its digits in upper case.
#[derive(Clone, Copy)]
pub struct RuleText<'a>(pub &'a Rule);

impl<'a> Part for RuleText<'a> {
    ghost use Rattle.trace_text.specs.RuleText.{rule_text};

    ghost text = { λ rule. rule_text rule.0.now };

    fn say<S: TextSink>(self, out: &mut S) {
        let prefix = HexBytes(self.0.prefix().bytes());
        match self.0.deed() {
            Deed::Drop => say(out, ("drop ", prefix)),
            Deed::Mask(mask) => say(out, ("mask ", prefix, MaskText(&mask))),
        }
    }
}

/// A mask, as a profile has it behind the prefix.
#[derive(Clone, Copy)]
struct MaskText<'a>(&'a Mask);

impl<'a> Part for MaskText<'a> {
    ghost use Rattle.uds_rules.specs.Pattern.{mask_text};

    ghost text = { λ mask. mask_text mask.0.now };

    fn say<S: TextSink>(self, out: &mut S) {
        let mut left = *self.0;
        'places: while let Some((is_masked, behind)) = left.split_first() {
            say(out, Either(is_masked, "..", "??"));
            left = behind;
        }
        say(out, When(left.cuts(), "*"));
    }
}
