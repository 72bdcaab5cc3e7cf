//! The names of sub-functions.

ghost use Rattle.std.specs.Prelude.{◌≡◌, option_map};
ghost use Rattle.uds_names.specs.Names.{name_in};
ghost use Rattle.uds_names.specs.SubFunctions as Spec;

/// The bit of a sub-function by which the tester asks for no positive response: its number is what lies below.
const SUPPRESS_POSITIVE_RESPONSE: u8 = 0x80;

/// The name of a sub-function of a service (ISO 14229-1, the tables of sub-function values), by its byte, whether this
/// suppresses the positive response or not; `None` where the service has no table here, or the table no such number.
pub fn sub_function_name(service: u8, sub_function: u8) -> Option<&'static str>
    ensures { option_map (λ name. name.now) result ≡ Spec.sub_function_name service sub_function }
{
    let number = sub_function % SUPPRESS_POSITIVE_RESPONSE;
    match service {
        0x10 => session_name(number),
        0x11 => reset_name(number),
        0x19 => report_name(number),
        0x27 => security_name(number),
        0x28 => communication_name(number),
        0x31 => routine_control_name(number),
        0x3E => presence_name(number),
        0x85 => setting_name(number),
        0x87 => link_name(number),
        _ => None,
    }
}

/// Whether a level of SecurityAccess asks for a seed or sends the key.
fn security_name(level: u8) -> Option<&'static str>
    ensures { option_map (λ name. name.now) result ≡ Spec.security_name level }
{
    match level {
        0x01..=0x42 => {
            if level % 2 == 1 {
                Some("requestSeed")
            } else {
                Some("sendKey")
            }
        }
        _ => None,
    }
}

/// The name of a session.
fn session_name(number: u8) -> Option<&'static str>
    ensures { option_map (λ name. name.now) result ≡ name_in Spec.sessions number }
{
    match number {
        0x01 => Some("defaultSession"),
        0x02 => Some("programmingSession"),
        0x03 => Some("extendedDiagnosticSession"),
        0x04 => Some("safetySystemDiagnosticSession"),
        _ => None,
    }
}

/// The name of a reset.
fn reset_name(number: u8) -> Option<&'static str>
    ensures { option_map (λ name. name.now) result ≡ name_in Spec.resets number }
{
    match number {
        0x01 => Some("hardReset"),
        0x02 => Some("keyOffOnReset"),
        0x03 => Some("softReset"),
        0x04 => Some("enableRapidPowerShutDown"),
        0x05 => Some("disableRapidPowerShutDown"),
        _ => None,
    }
}

/// The name of a report of trouble codes.
fn report_name(number: u8) -> Option<&'static str>
    ensures { option_map (λ name. name.now) result ≡ name_in Spec.reports number }
{
    match number {
        0x01 => Some("reportNumberOfDTCByStatusMask"),
        0x02 => Some("reportDTCByStatusMask"),
        0x03 => Some("reportDTCSnapshotIdentification"),
        0x04 => Some("reportDTCSnapshotRecordByDTCNumber"),
        0x05 => Some("reportDTCStoredDataByRecordNumber"),
        0x06 => Some("reportDTCExtDataRecordByDTCNumber"),
        0x07 => Some("reportNumberOfDTCBySeverityMaskRecord"),
        0x08 => Some("reportDTCBySeverityMaskRecord"),
        0x09 => Some("reportSeverityInformationOfDTC"),
        0x0A => Some("reportSupportedDTC"),
        0x0B => Some("reportFirstTestFailedDTC"),
        0x0C => Some("reportFirstConfirmedDTC"),
        0x0D => Some("reportMostRecentTestFailedDTC"),
        0x0E => Some("reportMostRecentConfirmedDTC"),
        0x0F => Some("reportMirrorMemoryDTCByStatusMask"),
        0x10 => Some("reportMirrorMemoryDTCExtDataRecordByDTCNumber"),
        0x11 => Some("reportNumberOfMirrorMemoryDTCByStatusMask"),
        0x12 => Some("reportNumberOfEmissionsOBDDTCByStatusMask"),
        0x13 => Some("reportEmissionsOBDDTCByStatusMask"),
        0x14 => Some("reportDTCFaultDetectionCounter"),
        0x15 => Some("reportDTCWithPermanentStatus"),
        0x16 => Some("reportDTCExtDataRecordByRecordNumber"),
        0x17 => Some("reportUserDefMemoryDTCByStatusMask"),
        0x18 => Some("reportUserDefMemoryDTCSnapshotRecordByDTCNumber"),
        0x19 => Some("reportUserDefMemoryDTCExtDataRecordByDTCNumber"),
        0x42 => Some("reportWWHOBDDTCByMaskRecord"),
        0x55 => Some("reportWWHOBDDTCWithPermanentStatus"),
        0x56 => Some("reportDTCInformationByDTCReadinessGroupIdentifier"),
        _ => None,
    }
}

/// The name of what is done to the communication.
fn communication_name(number: u8) -> Option<&'static str>
    ensures { option_map (λ name. name.now) result ≡ name_in Spec.communications number }
{
    match number {
        0x00 => Some("enableRxAndTx"),
        0x01 => Some("enableRxAndDisableTx"),
        0x02 => Some("disableRxAndEnableTx"),
        0x03 => Some("disableRxAndTx"),
        0x04 => Some("enableRxAndDisableTxWithEnhancedAddressInformation"),
        0x05 => Some("enableRxAndTxWithEnhancedAddressInformation"),
        _ => None,
    }
}

/// The name of what is done to a routine.
fn routine_control_name(number: u8) -> Option<&'static str>
    ensures { option_map (λ name. name.now) result ≡ name_in Spec.routine_controls number }
{
    match number {
        0x01 => Some("startRoutine"),
        0x02 => Some("stopRoutine"),
        0x03 => Some("requestRoutineResults"),
        _ => None,
    }
}

/// The name of the one sub-function of TesterPresent.
fn presence_name(number: u8) -> Option<&'static str>
    ensures { option_map (λ name. name.now) result ≡ name_in Spec.presences number }
{
    match number {
        0x00 => Some("zeroSubFunction"),
        _ => None,
    }
}

/// The name of a setting of trouble codes.
fn setting_name(number: u8) -> Option<&'static str>
    ensures { option_map (λ name. name.now) result ≡ name_in Spec.settings number }
{
    match number {
        0x01 => Some("on"),
        0x02 => Some("off"),
        _ => None,
    }
}

/// The name of what is done to the link.
fn link_name(number: u8) -> Option<&'static str>
    ensures { option_map (λ name. name.now) result ≡ name_in Spec.links number }
{
    match number {
        0x01 => Some("verifyModeTransitionWithFixedParameter"),
        0x02 => Some("verifyModeTransitionWithSpecificParameter"),
        0x03 => Some("transitionMode"),
        _ => None,
    }
}
