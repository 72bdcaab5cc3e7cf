//! The texts that commands share: names, numbers, the lines of items and of what became of frames, in words and as
//! JSON.
//!
//! ```text
//! 1 exchange ReadDataByIdentifier 22F190 -> positive 62F1904142
//! line 7: unit reception from line 3 of 20 bytes ended: late
//! {"line":9,"event":"dropped","direction":"unit","reason":"consecutive frame unexpected"}
//! ```
//!
//! All are said to a [`TextSink`](trace_io::TextSink), by parts (`text_parts`), which here are numbers, bytes and
//! names. Which text it is, `specs` says, for JSON by the object that is meant.
//!
//! | What | Files | Definitions |
//! |---|---|---|
//! | numbers and bytes | `numbers`, `digits`, `bytes`, `counts` | `Words`, `Counts` |
//! | names: who sent a message, services, codes, causes | `names`, `name_parts` | `Words`, `RemarkLines` |
//! | how commands write | `item_style`, `comparison_style`, `credit_style`, `notation` | |
//! | items, in words and as JSON | `item_style`, `notation`, `item_lines`, `item_objects` | `ItemLines`, `Json` |
//! | remarks: what a line that explains a log tells | `remark`, `remark_lines`, `remark_objects` | `RemarkLines` |
//! | rules, and what they leave of messages | `rule_text`, `ruled_bytes` | `RuleText`, `RuledText` |
//! | what holds of these texts | [`laws`] | `Laws`, `RuledLaws` |
//!
//! [`say_items`] says the list of a meaning, [`say_remark`] a line that explains a log; [`laws`] says that equal lists
//! have equal texts, and only they.
#![tactic(auto)]

mod bytes;
mod comparison_style;
mod counts;
mod credit_style;
mod digits;
mod item_lines;
mod item_objects;
mod item_style;
pub mod laws;
mod name_parts;
mod names;
mod notation;
mod numbers;
mod remark;
mod remark_lines;
mod remark_objects;
mod rule_text;
mod ruled_bytes;

pub use bytes::{Byte, HexBytes, Verbatim};
pub use comparison_style::ComparisonStyle;
pub use counts::{MessagesWord, say_counts};
pub use credit_style::CreditStyle;
pub use item_lines::{say_item_line, say_items, say_worded_line};
pub use item_objects::say_item_object;
pub use item_style::{ItemStyle, Numbering};
pub use name_parts::{
    DropReason, EndCause, Identifier, LayoutFault, ResponseCode, Role, Sender, ServiceName,
};
pub use notation::Notation;
pub use numbers::{HexadecimalDigit, Length, Number, Ordinal, SixDecimals, Stamp, ThreeDecimals};
pub use remark::Remark;
pub use remark_lines::say_remark;
pub use rule_text::RuleText;
pub use ruled_bytes::RuledBytes;
