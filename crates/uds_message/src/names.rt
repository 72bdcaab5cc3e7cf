//! The names of services and of response codes.

ghost use Rattle.std.specs.Prelude.{◌≡◌, true, false, option_map};
ghost use Rattle.uds_message.specs.Tables as Spec;

/// A row of the table of services.
#[derive(Clone, Copy)]
struct Service {
    name: &'static str,
    has_sub_function: bool,
}

/// The name of a service by its identifier, in this project's spelling, which has neither blanks nor hyphens; `None` where
/// the table has no such service.
pub fn service_name(sid: u8) -> Option<&'static str>
    ensures { option_map (λ name. name.now) result ≡ option_map (λ row. row.name) (Spec.service_row sid) }
{
    service_row(sid).map(|service| service.name)
}

/// Whether the service has a sub-function, and so a bit to suppress the positive response.
pub fn has_sub_function(sid: u8) -> bool
    ensures { result ≡ Spec.has_sub_function sid }
{
    match service_row(sid) {
        Some(service) => service.has_sub_function,
        None => false,
    }
}

/// The table of services.
fn service_row(sid: u8) -> Option<Service>
    ensures { option_map (λ row. record {
      sid = sid;
      name = row.name.now;
      has_sub_function = row.has_sub_function;
    }) result ≡ Spec.service_row sid }
{
    match sid {
        0x10 => Some(with_sub_function("DiagnosticSessionControl")),
        0x11 => Some(with_sub_function("ECUReset")),
        0x14 => Some(without_sub_function("ClearDiagnosticInformation")),
        0x19 => Some(with_sub_function("ReadDTCInformation")),
        0x22 => Some(without_sub_function("ReadDataByIdentifier")),
        0x23 => Some(without_sub_function("ReadMemoryByAddress")),
        0x24 => Some(without_sub_function("ReadScalingDataByIdentifier")),
        0x27 => Some(with_sub_function("SecurityAccess")),
        0x28 => Some(with_sub_function("CommunicationControl")),
        0x29 => Some(with_sub_function("Authentication")),
        0x2A => Some(without_sub_function("ReadDataByPeriodicIdentifier")),
        0x2C => Some(with_sub_function("DynamicallyDefineDataIdentifier")),
        0x2E => Some(without_sub_function("WriteDataByIdentifier")),
        0x2F => Some(without_sub_function("InputOutputControlByIdentifier")),
        0x31 => Some(with_sub_function("RoutineControl")),
        0x34 => Some(without_sub_function("RequestDownload")),
        0x35 => Some(without_sub_function("RequestUpload")),
        0x36 => Some(without_sub_function("TransferData")),
        0x37 => Some(without_sub_function("RequestTransferExit")),
        0x38 => Some(without_sub_function("RequestFileTransfer")),
        0x3D => Some(without_sub_function("WriteMemoryByAddress")),
        0x3E => Some(with_sub_function("TesterPresent")),
        0x83 => Some(with_sub_function("AccessTimingParameter")),
        0x84 => Some(without_sub_function("SecuredDataTransmission")),
        0x85 => Some(with_sub_function("ControlDTCSetting")),
        0x86 => Some(with_sub_function("ResponseOnEvent")),
        0x87 => Some(with_sub_function("LinkControl")),
        _ => None,
    }
}

fn with_sub_function(name: &'static str) -> Service
    ensures name { result.name.now ≡ name.now }
    ensures sub_function { result.has_sub_function ≡ true }
{
    Service {
        name,
        has_sub_function: true,
    }
}

fn without_sub_function(name: &'static str) -> Service
    ensures name { result.name.now ≡ name.now }
    ensures sub_function { result.has_sub_function ≡ false }
{
    Service {
        name,
        has_sub_function: false,
    }
}

/// The name of a negative response code, in this project's spelling, which has neither blanks nor hyphens; `None` where the
/// table has no such code.
pub fn code_name(code: u8) -> Option<&'static str>
    ensures { option_map (λ name. name.now) result ≡ Spec.code_name code }
{
    match code {
        0x10 => Some("generalReject"),
        0x11 => Some("serviceNotSupported"),
        0x12 => Some("subFunctionNotSupported"),
        0x13 => Some("incorrectMessageLengthOrInvalidFormat"),
        0x14 => Some("responseTooLong"),
        0x21 => Some("busyRepeatRequest"),
        0x22 => Some("conditionsNotCorrect"),
        0x24 => Some("requestSequenceError"),
        0x25 => Some("noResponseFromSubnetComponent"),
        0x26 => Some("failurePreventsExecutionOfRequestedAction"),
        0x31 => Some("requestOutOfRange"),
        0x33 => Some("securityAccessDenied"),
        0x35 => Some("invalidKey"),
        0x36 => Some("exceedNumberOfAttempts"),
        0x37 => Some("requiredTimeDelayNotExpired"),
        0x70 => Some("uploadDownloadNotAccepted"),
        0x71 => Some("transferDataSuspended"),
        0x72 => Some("generalProgrammingFailure"),
        0x73 => Some("wrongBlockSequenceCounter"),
        0x78 => Some("requestCorrectlyReceivedResponsePending"),
        0x7E => Some("subFunctionNotSupportedInActiveSession"),
        0x7F => Some("serviceNotSupportedInActiveSession"),
        _ => None,
    }
}
