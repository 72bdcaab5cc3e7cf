//! The blocks in which the rows of a report stand.

ghost use Rattle.std.specs.Prelude.{◌≡◌, ◌^◌, ◌-◌, ◌<◌, ◌||◌};
ghost use Rattle.trace_report.specs.Blocks as Spec;
ghost use Rattle.trace_report.specs.Rows.{row_of};

use crate::counting::one_more;
use crate::roles::is_request_role;
use crate::row::SessionRow;

/// A block of so many rows ends before the next request.
const FULL_BLOCK: u64 = 200;

/// A block of so many rows ends before any row.
const LARGEST_BLOCK: u64 = 1000;

/// So many blocks, the first ones, are written open.
pub(crate) const OPEN_BLOCKS: u64 = 10;

/// How many blocks stand, and how many rows the last of them has.
#[derive(Clone, Copy, Debug)]
pub(crate) struct Blocks {
    pub count: u64,
    pub rows: u64,
}

/// Before the first row.
pub(crate) fn no_blocks() -> Blocks
    ensures { result ≡ Spec.no_blocks }
{
    Blocks { count: 0, rows: 0 }
}

/// Whether a row begins an exchange.
pub fn begins_exchange(row: SessionRow<'_>) -> bool
    ensures { result ≡ Spec.begins_exchange (row_of row.entry) }
{
    match row {
        SessionRow::Message { sent, .. } => is_request_role(sent.role),
        SessionRow::Missing(_) => false,
    }
}

/// Whether a block begins before a row, which begins an exchange or does not.
pub(crate) fn begins_block(exchange: bool, blocks: Blocks) -> bool
    ensures { result ≡ Spec.begins_block exchange blocks }
{
    blocks.count == 0 || blocks.rows >= LARGEST_BLOCK || (exchange && blocks.rows >= FULL_BLOCK)
}

/// Whether a body of the table begins before a row: each exchange has one, and each block. A call of its own, so that a
/// proof can name the test.
pub(crate) fn begins_body(block: bool, exchange: bool) -> bool
    ensures { result ≡ (block || exchange) }
{
    block || exchange
}

/// The blocks that stand with one more row.
pub(crate) fn one_more_row(exchange: bool, blocks: Blocks) -> Blocks
    ensures { blocks.count < 2 ^ 64 - 1 → blocks.rows < 2 ^ 64 - 1 → result ≡ Spec.one_more_row exchange blocks }
{
    if begins_block(exchange, blocks) {
        Blocks {
            count: one_more(blocks.count),
            rows: 1,
        }
    } else {
        Blocks {
            count: blocks.count,
            rows: one_more(blocks.rows),
        }
    }
}

/// Whether the rows of the last block are brief.
pub(crate) fn is_brief(blocks: Blocks) -> bool
    ensures { result ≡ Spec.is_brief blocks }
{
    blocks.count > OPEN_BLOCKS
}
