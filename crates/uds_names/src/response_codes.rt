//! The names of response codes.

ghost use Rattle.std.specs.Prelude.{◌≡◌, option_map};
ghost use Rattle.uds_names.specs.ResponseCodes as Spec;

/// The name of a response code (ISO 14229-1, Annex A.1) that `uds_message::code_name` lacks: its own, or that of its
/// range, for 0x95 to 0xEF and 0xF0 to 0xFE; else `None`.
pub fn response_code_name(code: u8) -> Option<&'static str>
    ensures { option_map (λ name. name.now) result ≡ Spec.response_code_name code }
{
    match code {
        0x95..=0xEF => Some("reservedForSpecificConditionsNotCorrect"),
        0xF0..=0xFE => Some("vehicleManufacturerSpecificConditionsNotCorrect"),
        0x34 => Some("authenticationRequired"),
        0x38 => Some("secureDataTransmissionRequired"),
        0x39 => Some("secureDataTransmissionNotAllowed"),
        0x3A => Some("secureDataVerificationFailed"),
        0x50 => Some("certificateVerificationFailedInvalidTimePeriod"),
        0x51 => Some("certificateVerificationFailedInvalidSignature"),
        0x52 => Some("certificateVerificationFailedInvalidChainOfTrust"),
        0x53 => Some("certificateVerificationFailedInvalidType"),
        0x54 => Some("certificateVerificationFailedInvalidFormat"),
        0x55 => Some("certificateVerificationFailedInvalidContent"),
        0x56 => Some("certificateVerificationFailedInvalidScope"),
        0x57 => Some("certificateVerificationFailedInvalidCertificate"),
        0x58 => Some("ownershipVerificationFailed"),
        0x59 => Some("challengeCalculationFailed"),
        0x5A => Some("settingAccessRightsFailed"),
        0x5B => Some("sessionKeyCreationDerivationFailed"),
        0x5C => Some("configurationDataUsageFailed"),
        0x5D => Some("deAuthenticationFailed"),
        0x81 => Some("rpmTooHigh"),
        0x82 => Some("rpmTooLow"),
        0x83 => Some("engineIsRunning"),
        0x84 => Some("engineIsNotRunning"),
        0x85 => Some("engineRunTimeTooLow"),
        0x86 => Some("temperatureTooHigh"),
        0x87 => Some("temperatureTooLow"),
        0x88 => Some("vehicleSpeedTooHigh"),
        0x89 => Some("vehicleSpeedTooLow"),
        0x8A => Some("throttlePedalTooHigh"),
        0x8B => Some("throttlePedalTooLow"),
        0x8C => Some("transmissionRangeNotInNeutral"),
        0x8D => Some("transmissionRangeNotInGear"),
        0x8F => Some("brakeSwitchNotClosed"),
        0x90 => Some("shifterLeverNotInPark"),
        0x91 => Some("torqueConverterClutchLocked"),
        0x92 => Some("voltageTooHigh"),
        0x93 => Some("voltageTooLow"),
        0x94 => Some("resourceTemporarilyNotAvailable"),
        _ => None,
    }
}
