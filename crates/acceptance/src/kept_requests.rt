//! What is kept of requests, by worked values. No value here comes from the program: a length that is announced in 12 bits is at most
//! 4,095 (ISO 15765-2), and ReadDataByIdentifier asks for as many data identifiers as it has pairs of bytes (ISO 14229-1).

use crate::rows::{bytes_of, lines_of, number_of};
use asked_request::AskedRequest;
use std::alloc::Global;
use std::test::Fail;

/// The service of a request, how many bytes this has, and how many are kept of it, the first ones. Each row is kept in the place of the
/// one before.
const KEPT: &str = "\
22 3 3
22 4095 4095
22 4096 0
22 4097 0
36 4094 4094
36 4095 4095
36 4096 4095
2E 70000 4095
22 1 1
31 4 4";

#[test]
fn as_many_bytes_are_kept_as_twelve_bits_announce(rt: HostRuntime) -> Result<(), Fail> {
    let alloc = rt.alloc();
    let mut asked = AskedRequest::none();
    assert!(rt; asked.bytes().is_empty());
    for row in lines_of(KEPT) {
        let (service, rest) = row.split_once(' ').ok_or("no length")?;
        let (length, expected) = rest.split_once(' ').ok_or("nothing expected")?;
        let request = request_of(alloc, service, number_of(length)?)?;
        asked.keep(&request);
        let kept = asked.bytes();
        assert!(rt; kept.len() as u64 == number_of(expected)?);
        assert!(rt; request.get(..kept.len()) == Some(kept));
    }
    Ok(())
}

/// A request of so many bytes, the later ones other than those before.
fn request_of(alloc: Global, service: &str, length: u64) -> Result<Vec<u8>, Fail> {
    let mut request = bytes_of(alloc, service)?;
    for place in 1..length {
        request.push((place % 251) as u8)?;
    }
    Ok(request)
}
