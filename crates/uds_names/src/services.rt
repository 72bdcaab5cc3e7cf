//! The names of services that are none of UDS.

ghost use Rattle.std.specs.Prelude.{◌≡◌, option_map};
ghost use Rattle.uds_names.specs.Services as Spec;

/// The title of a service of OBD (ISO 15031-5, SAE J1979), with blanks as there; `None` where the identifier is of none
/// of the ten.
pub fn obd_service_name(service: u8) -> Option<&'static str>
    ensures { option_map (λ name. name.now) result ≡ Spec.obd_service_name service }
{
    match service {
        0x01 => Some("Request current powertrain diagnostic data"),
        0x02 => Some("Request powertrain freeze frame data"),
        0x03 => Some("Request emission-related diagnostic trouble codes"),
        0x04 => Some("Clear/reset emission-related diagnostic information"),
        0x05 => Some("Request oxygen sensor monitoring test results"),
        0x06 => Some("Request on-board monitoring test results for specific monitored systems"),
        0x07 => Some(
            "Request emission-related diagnostic trouble codes detected during current or last completed driving cycle",
        ),
        0x08 => Some("Request control of on-board system, test or component"),
        0x09 => Some("Request vehicle information"),
        0x0A => Some("Request emission-related diagnostic trouble codes with permanent status"),
        _ => None,
    }
}

/// The name of a service of KWP2000 that UDS dropped (ISO 14230-3; ISO 14230-2 for 81 and 82); `None` where the
/// identifier is of another service in UDS, or of none.
pub fn kwp_service_name(service: u8) -> Option<&'static str>
    ensures { option_map (λ name. name.now) result ≡ Spec.kwp_service_name service }
{
    match service {
        0x12 => Some("readFreezeFrameData"),
        0x13 => Some("readDiagnosticTroubleCodes"),
        0x17 => Some("readStatusOfDiagnosticTroubleCodes"),
        0x18 => Some("readDiagnosticTroubleCodesByStatus"),
        0x1A => Some("readEcuIdentification"),
        0x20 => Some("stopDiagnosticSession"),
        0x21 => Some("readDataByLocalIdentifier"),
        0x26 => Some("setDataRates"),
        0x30 => Some("inputOutputControlByLocalIdentifier"),
        0x32 => Some("stopRoutineByLocalIdentifier"),
        0x33 => Some("requestRoutineResultsByLocalIdentifier"),
        0x39 => Some("stopRoutineByAddress"),
        0x3A => Some("requestRoutineResultsByAddress"),
        0x3B => Some("writeDataByLocalIdentifier"),
        0x81 => Some("startCommunication"),
        0x82 => Some("stopCommunication"),
        _ => None,
    }
}
