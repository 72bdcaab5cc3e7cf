//! How many bytes of a request its positive response repeats.

ghost use Rattle.std.specs.Prelude.{◌≡◌, ◌≤◌};
ghost use Rattle.uds_echo.specs.Repeated as Spec;

use uds_message::{has_sub_function, sid};

/// The service identifier of DynamicallyDefineDataIdentifier.
const DYNAMICALLY_DEFINE_DATA_IDENTIFIER: u8 = 0x2C;

/// The service identifier of RoutineControl.
const ROUTINE_CONTROL: u8 = 0x31;

/// The bit of a sub-function by which the tester asks for no positive response: its number is what lies below.
const SUPPRESS_POSITIVE_RESPONSE: u8 = 0x80;

/// How many bytes of a request behind its service identifier a positive answer repeats (ISO 14229-1, the section of each
/// service): of ReadDataByIdentifier the two of one of its identifiers, of other services the first ones; of a service that
/// repeats nothing none.
pub fn repeated_count(request: &[u8], answer: &[u8]) -> usize
    ensures value { result ≡ Spec.repeated_count request.now answer.now }
    ensures most { result ≤ 3 }
{
    match sid(request) {
        DYNAMICALLY_DEFINE_DATA_IDENTIFIER => {
            if request.len() > 3 && answer.len() > 3 {
                3
            } else {
                1
            }
        }
        ROUTINE_CONTROL => { if tells_routine(request) { 3 } else { 1 } }
        service => count_of_service(service),
    }
}

/// How many bytes are repeated of a request of this service, whatever stands in it.
fn count_of_service(service: u8) -> usize
    ensures { result ≡ Spec.count_of_service service }
{
    if has_sub_function(service) {
        return 1;
    }
    match service {
        0x22 | 0x24 | 0x2E | 0x2F => 2,
        0x36 | 0x38 => 1,
        _ => 0,
    }
}

/// Whether a request of RoutineControl tells a routine of two bytes behind its sub-function.
fn tells_routine(request: &[u8]) -> bool
    ensures { result ≡ Spec.tells_routine (Spec.sub_function_of request.now) }
{
    match request {
        [_, sub_function, ..] => matches!(sub_function % SUPPRESS_POSITIVE_RESPONSE, 1..=3),
        _ => false,
    }
}
