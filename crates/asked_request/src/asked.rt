//! The request that was asked last.

ghost use Rattle.std.specs.Prelude.{◌≡◌, ◌≤◌, length, take};
ghost use Rattle.asked_request.specs.Asked as Spec;

use arrayvec::ArrayVec;
use std::marker::Model;
use uds_message::sid;

/// So many bytes are kept of a request: as many as a message has whose length is announced in 12 bits.
const MOST_ASKED: usize = 4095;

/// The service identifier of ReadDataByIdentifier.
const READ_DATA_BY_IDENTIFIER: u8 = 0x22;

/// What is kept of the request that was asked last, in place.
#[derive(Debug, Drop)]
pub struct AskedRequest {
    bytes: ArrayVec<u8, MOST_ASKED>,
}

impl Model for AskedRequest {
    ghost use Rattle.std.specs.Prelude.{ℕ, List};

    ghost Value = { List ℕ };

    ghost view = { λ r. r.bytes.items };
}

impl AskedRequest {
    ghost use Rattle.std.specs.Prelude.{◌≡◌, []};
    ghost use Rattle.asked_request.specs.Asked as Spec;

    /// Nothing was asked yet.
    pub fn none() -> AskedRequest
        ensures { result ≡ [] }
    {
        AskedRequest {
            bytes: ArrayVec::new(),
        }
    }

    /// Keeps what tells whether an answer is other than this request asked, in place of what was kept before.
    pub fn keep(&mut self, request: &[u8])
        ensures { self.new ≡ Spec.asked_of request.now }
    {
        self.bytes.clear();
        let _ = self.bytes.try_extend_from_slice(kept_of(request));
    }

    /// What is kept.
    #[inline(always)]
    pub fn bytes(&self) -> &[u8]
        ensures { result.now ≡ self.now }
    {
        self.bytes.as_slice()
    }
}

/// What is kept of a request.
fn kept_of(request: &[u8]) -> &[u8]
    ensures value { result.now ≡ Spec.asked_of request.now }
    ensures most { length result.now ≤ 4095 }
{
    if asks_for_more(request) {
        &[]
    } else {
        first_bytes(request)
    }
}

/// Whether not all data identifiers are kept that a request asks for.
fn asks_for_more(request: &[u8]) -> bool
    ensures { result ≡ Spec.asks_for_more request.now }
{
    sid(request) == READ_DATA_BY_IDENTIFIER && request.len() > MOST_ASKED
}

/// As many bytes of a request as are kept.
fn first_bytes(request: &[u8]) -> &[u8]
    ensures value { result.now ≡ take Spec.most_asked request.now }
    ensures most { length result.now ≤ 4095 }
{
    &request[..MOST_ASKED.min(request.len())]
}
