//! The names of data identifiers and of routines.

ghost use Rattle.std.specs.Prelude.{◌≡◌, option_map};
ghost use Rattle.uds_names.specs.Identifiers as Spec;

/// The name of a data identifier (ISO 14229-1, Annex C.1): its own, without the word DataIdentifier at its end, or that
/// of its range, for F2xx, F3xx, F4xx, F6xx and F8xx; else `None`.
pub fn data_identifier_name(identifier: u16) -> Option<&'static str>
    ensures { option_map (λ name. name.now) result ≡ Spec.data_identifier_name identifier }
{
    match identifier {
        0xF200..=0xF2FF => Some("periodicDataIdentifier"),
        0xF300..=0xF3FF => Some("dynamicallyDefinedDataIdentifier"),
        0xF400..=0xF4FF => Some("OBDDataIdentifier"),
        0xF600..=0xF6FF => Some("OBDMonitorDataIdentifier"),
        0xF800..=0xF8FF => Some("OBDInfoTypeDataIdentifier"),
        0xF180 => Some("bootSoftwareIdentification"),
        0xF181 => Some("applicationSoftwareIdentification"),
        0xF182 => Some("applicationDataIdentification"),
        0xF183 => Some("bootSoftwareFingerprint"),
        0xF184 => Some("applicationSoftwareFingerprint"),
        0xF185 => Some("applicationDataFingerprint"),
        0xF186 => Some("activeDiagnosticSession"),
        0xF187 => Some("vehicleManufacturerSparePartNumber"),
        0xF188 => Some("vehicleManufacturerECUSoftwareNumber"),
        0xF189 => Some("vehicleManufacturerECUSoftwareVersionNumber"),
        0xF18A => Some("systemSupplierIdentifier"),
        0xF18B => Some("ECUManufacturingDate"),
        0xF18C => Some("ECUSerialNumber"),
        0xF18D => Some("supportedFunctionalUnits"),
        0xF18E => Some("vehicleManufacturerKitAssemblyPartNumber"),
        0xF190 => Some("VIN"),
        0xF191 => Some("vehicleManufacturerECUHardwareNumber"),
        0xF192 => Some("systemSupplierECUHardwareNumber"),
        0xF193 => Some("systemSupplierECUHardwareVersionNumber"),
        0xF194 => Some("systemSupplierECUSoftwareNumber"),
        0xF195 => Some("systemSupplierECUSoftwareVersionNumber"),
        0xF196 => Some("exhaustRegulationOrTypeApprovalNumber"),
        0xF197 => Some("systemNameOrEngineType"),
        0xF198 => Some("repairShopCodeOrTesterSerialNumber"),
        0xF199 => Some("programmingDate"),
        0xF19A => Some("calibrationRepairShopCodeOrCalibrationEquipmentSerialNumber"),
        0xF19B => Some("calibrationDate"),
        0xF19C => Some("calibrationEquipmentSoftwareNumber"),
        0xF19D => Some("ECUInstallationDate"),
        0xF19E => Some("ODXFile"),
        0xF19F => Some("entity"),
        _ => None,
    }
}

/// The name of a routine (ISO 14229-1, Annex F.1); `None` for those that manufacturers and suppliers define.
pub fn routine_name(identifier: u16) -> Option<&'static str>
    ensures { option_map (λ name. name.now) result ≡ Spec.routine_name identifier }
{
    match identifier {
        0xE200 => Some("deployLoopRoutine"),
        0xFF00 => Some("eraseMemory"),
        0xFF01 => Some("checkProgrammingDependencies"),
        _ => None,
    }
}
