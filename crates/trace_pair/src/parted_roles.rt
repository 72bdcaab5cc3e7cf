//! What messages are to their items, in words.

use direction::Dir;
use pair_words::{PartedCode, PartedService};
use text_parts::{Part, say};
use trace_io::TextSink;
use trace_report::{MessageRole, RoleWords};
use uds_message::{response_code, sid};

/// What a message is to its item, in words, of which a name may be parted.
#[derive(Clone, Copy)]
pub(crate) struct PartedRoleWords<'a>(pub MessageRole, pub Dir, pub &'a [u8]);

impl<'a> Part for PartedRoleWords<'a> {
    ghost use Rattle.trace_pair.specs.PartedRoles.{parted_role_words};

    ghost text = { λ words. parted_role_words words.0 words.1 words.2.now };

    fn say<S: TextSink>(self, out: &mut S) {
        let PartedRoleWords(role, dir, message) = self;
        match role {
            MessageRole::Request => say(
                out,
                ("<b>", PartedService(sid(message)), "</b> <i>request</i> "),
            ),
            MessageRole::Negative { .. } => say(
                out,
                (
                    "<b>negative</b> <em>",
                    PartedCode(response_code(message)),
                    "</em> ",
                ),
            ),
            MessageRole::Positive { .. }
            | MessageRole::Pending { .. }
            | MessageRole::KeepAlive
            | MessageRole::Stray => say(out, RoleWords(role, dir, message)),
        }
    }
}
