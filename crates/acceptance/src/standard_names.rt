//! The names of the standards, number by number, and what stands beside them without one. No value here comes from the
//! program: each row is typed from the table of its standard.

use crate::rows::{assert_text, bytes_of, digits_of, lines_of};
use std::test::Fail;
use uds_names::{
    data_identifier_name, kwp_service_name, obd_service_name, response_code_name, routine_name,
    status_bit_name, sub_function_name, trouble_code, trouble_records,
};

/// Sub-functions, each behind its service, and with bit 7, which is no part of their number (ISO 14229-1, the tables of
/// sub-function values of each service; 190F to 1913 by the edition of 2013).
const SUB_FUNCTIONS: &str = "\
1000 -
1001 defaultSession
1002 programmingSession
1003 extendedDiagnosticSession
1004 safetySystemDiagnosticSession
1005 -
1081 defaultSession
1083 extendedDiagnosticSession
1100 -
1101 hardReset
1102 keyOffOnReset
1103 softReset
1104 enableRapidPowerShutDown
1105 disableRapidPowerShutDown
1106 -
1400 -
1900 -
1901 reportNumberOfDTCByStatusMask
1902 reportDTCByStatusMask
1903 reportDTCSnapshotIdentification
1904 reportDTCSnapshotRecordByDTCNumber
1905 reportDTCStoredDataByRecordNumber
1906 reportDTCExtDataRecordByDTCNumber
1907 reportNumberOfDTCBySeverityMaskRecord
1908 reportDTCBySeverityMaskRecord
1909 reportSeverityInformationOfDTC
190A reportSupportedDTC
190B reportFirstTestFailedDTC
190C reportFirstConfirmedDTC
190D reportMostRecentTestFailedDTC
190E reportMostRecentConfirmedDTC
190F reportMirrorMemoryDTCByStatusMask
1910 reportMirrorMemoryDTCExtDataRecordByDTCNumber
1911 reportNumberOfMirrorMemoryDTCByStatusMask
1912 reportNumberOfEmissionsOBDDTCByStatusMask
1913 reportEmissionsOBDDTCByStatusMask
1914 reportDTCFaultDetectionCounter
1915 reportDTCWithPermanentStatus
1916 reportDTCExtDataRecordByRecordNumber
1917 reportUserDefMemoryDTCByStatusMask
1918 reportUserDefMemoryDTCSnapshotRecordByDTCNumber
1919 reportUserDefMemoryDTCExtDataRecordByDTCNumber
191B -
1941 -
1942 reportWWHOBDDTCByMaskRecord
1943 -
1954 -
1955 reportWWHOBDDTCWithPermanentStatus
1956 reportDTCInformationByDTCReadinessGroupIdentifier
1957 -
1982 reportDTCByStatusMask
2201 -
2700 -
2701 requestSeed
2702 sendKey
2703 requestSeed
2704 sendKey
2741 requestSeed
2742 sendKey
2743 -
2761 -
277F -
2783 requestSeed
27FF -
2800 enableRxAndTx
2801 enableRxAndDisableTx
2802 disableRxAndEnableTx
2803 disableRxAndTx
2804 enableRxAndDisableTxWithEnhancedAddressInformation
2805 enableRxAndTxWithEnhancedAddressInformation
2806 -
2883 disableRxAndTx
3100 -
3101 startRoutine
3102 stopRoutine
3103 requestRoutineResults
3104 -
3E00 zeroSubFunction
3E01 -
3E80 zeroSubFunction
8500 -
8501 on
8502 off
8503 -
8582 off
8700 -
8701 verifyModeTransitionWithFixedParameter
8702 verifyModeTransitionWithSpecificParameter
8703 transitionMode
8704 -";

/// Data identifiers (ISO 14229-1, Annex C.1), of which those of one number are without the word DataIdentifier.
const DATA_IDENTIFIERS: &str = "\
0000 -
F17F -
F180 bootSoftwareIdentification
F181 applicationSoftwareIdentification
F182 applicationDataIdentification
F183 bootSoftwareFingerprint
F184 applicationSoftwareFingerprint
F185 applicationDataFingerprint
F186 activeDiagnosticSession
F187 vehicleManufacturerSparePartNumber
F188 vehicleManufacturerECUSoftwareNumber
F189 vehicleManufacturerECUSoftwareVersionNumber
F18A systemSupplierIdentifier
F18B ECUManufacturingDate
F18C ECUSerialNumber
F18D supportedFunctionalUnits
F18E vehicleManufacturerKitAssemblyPartNumber
F18F -
F190 VIN
F191 vehicleManufacturerECUHardwareNumber
F192 systemSupplierECUHardwareNumber
F193 systemSupplierECUHardwareVersionNumber
F194 systemSupplierECUSoftwareNumber
F195 systemSupplierECUSoftwareVersionNumber
F196 exhaustRegulationOrTypeApprovalNumber
F197 systemNameOrEngineType
F198 repairShopCodeOrTesterSerialNumber
F199 programmingDate
F19A calibrationRepairShopCodeOrCalibrationEquipmentSerialNumber
F19B calibrationDate
F19C calibrationEquipmentSoftwareNumber
F19D ECUInstallationDate
F19E ODXFile
F19F entity
F1A0 -
F1FF -
F200 periodicDataIdentifier
F2FF periodicDataIdentifier
F300 dynamicallyDefinedDataIdentifier
F3FF dynamicallyDefinedDataIdentifier
F400 OBDDataIdentifier
F4FF OBDDataIdentifier
F500 -
F5FF -
F600 OBDMonitorDataIdentifier
F6FF OBDMonitorDataIdentifier
F700 -
F7FF -
F800 OBDInfoTypeDataIdentifier
F8FF OBDInfoTypeDataIdentifier
F900 -
FFFF -";

/// Routines (ISO 14229-1, Annex F.1).
const ROUTINES: &str = "\
0200 -
E1FF -
E200 deployLoopRoutine
E201 -
FEFF -
FF00 eraseMemory
FF01 checkProgrammingDependencies
FF03 -";

/// Response codes (ISO 14229-1, Annex A.1) but for those that `uds_message` names.
const RESPONSE_CODES: &str = "\
10 -
31 -
33 -
34 authenticationRequired
35 -
38 secureDataTransmissionRequired
39 secureDataTransmissionNotAllowed
3A secureDataVerificationFailed
3B -
4F -
50 certificateVerificationFailedInvalidTimePeriod
51 certificateVerificationFailedInvalidSignature
52 certificateVerificationFailedInvalidChainOfTrust
53 certificateVerificationFailedInvalidType
54 certificateVerificationFailedInvalidFormat
55 certificateVerificationFailedInvalidContent
56 certificateVerificationFailedInvalidScope
57 certificateVerificationFailedInvalidCertificate
58 ownershipVerificationFailed
59 challengeCalculationFailed
5A settingAccessRightsFailed
5B sessionKeyCreationDerivationFailed
5C configurationDataUsageFailed
5D deAuthenticationFailed
5E -
78 -
7F -
80 -
81 rpmTooHigh
82 rpmTooLow
83 engineIsRunning
84 engineIsNotRunning
85 engineRunTimeTooLow
86 temperatureTooHigh
87 temperatureTooLow
88 vehicleSpeedTooHigh
89 vehicleSpeedTooLow
8A throttlePedalTooHigh
8B throttlePedalTooLow
8C transmissionRangeNotInNeutral
8D transmissionRangeNotInGear
8E -
8F brakeSwitchNotClosed
90 shifterLeverNotInPark
91 torqueConverterClutchLocked
92 voltageTooHigh
93 voltageTooLow
94 resourceTemporarilyNotAvailable
95 reservedForSpecificConditionsNotCorrect
EF reservedForSpecificConditionsNotCorrect
F0 vehicleManufacturerSpecificConditionsNotCorrect
FE vehicleManufacturerSpecificConditionsNotCorrect
FF -";

/// Services of OBD, by their titles (ISO 15031-5, SAE J1979).
const OBD_SERVICES: &str = "\
00 -
01 Request current powertrain diagnostic data
02 Request powertrain freeze frame data
03 Request emission-related diagnostic trouble codes
04 Clear/reset emission-related diagnostic information
05 Request oxygen sensor monitoring test results
06 Request on-board monitoring test results for specific monitored systems
07 Request emission-related diagnostic trouble codes detected during current or last completed driving cycle
08 Request control of on-board system, test or component
09 Request vehicle information
0A Request emission-related diagnostic trouble codes with permanent status
0B -
41 -";

/// Services of KWP2000 (ISO 14230-3; ISO 14230-2 for 81 and 82), but for those whose identifiers UDS has.
const KWP_SERVICES: &str = "\
10 -
12 readFreezeFrameData
13 readDiagnosticTroubleCodes
14 -
17 readStatusOfDiagnosticTroubleCodes
18 readDiagnosticTroubleCodesByStatus
19 -
1A readEcuIdentification
20 stopDiagnosticSession
21 readDataByLocalIdentifier
22 -
26 setDataRates
30 inputOutputControlByLocalIdentifier
31 -
32 stopRoutineByLocalIdentifier
33 requestRoutineResultsByLocalIdentifier
38 -
39 stopRoutineByAddress
3A requestRoutineResultsByAddress
3B writeDataByLocalIdentifier
3C -
81 startCommunication
82 stopCommunication
83 -";

/// Trouble codes of three bytes (SAE J2012, ISO 15031-6): P0xxx to P3xxx, C0xxx to C3xxx, B0xxx to B3xxx and U0xxx to U3xxx,
/// and the failure type.
const TROUBLE_CODES: &str = "\
000000 P0000-00
012345 P0123-45
0FFF00 P0FFF-00
1A0BFF P1A0B-FF
20AC2C P20AC-2C
3FFFFF P3FFF-FF
400000 C0000-00
4123A1 C0123-A1
7FFFFF C3FFF-FF
800000 B0000-00
9A4C11 B1A4C-11
BFFFFF B3FFF-FF
C00000 U0000-00
C10087 U0100-87
FFFFFF U3FFF-FF";

/// The bits of the status of a trouble code (ISO 14229-1, Annex D.2).
const STATUS_BITS: &str = "\
00 testFailed
01 testFailedThisOperationCycle
02 pendingDTC
03 confirmedDTC
04 testNotCompletedSinceLastClear
05 testFailedSinceLastClear
06 testNotCompletedThisOperationCycle
07 warningIndicatorRequested
08 -
FF -";

/// Messages, and the trouble codes with their status that stand in them (ISO 14229-1, ReadDTCInformation, positive response
/// message definitions).
const TROUBLE_RECORDS: &str = "\
5902FF01234508 01234508
5902FF01234508C100872F 01234508C100872F
5902FF -
5902 -
59 -
5902FF0123 -
5902FF012345 -
5902FF0123450800 -
5902FF01234508C10087 -
5901FF01234508 -
5903FF01234508 -
5907FF01234508 -
5908FF01234508 -
5909FF01234508 -
590AFF01234508 01234508
590BFF01234508 01234508
590CFF01234508 01234508
590DFF01234508 01234508
590EFF01234508 01234508
590FFF01234508 -
5914FF01234508 -
5915FF01234508 01234508
5916FF01234508 -
5982FF01234508 -
590401234508 01234508
59040123450801F190 01234508
5904012345 -
5904 -
590601234508 01234508
590601234508017A 01234508
5906 -
590501234508 -
1902FF01234508 -
190401234508 -
7F1902FF01234508 -
5802FF01234508 -
 -";

#[test]
fn sub_functions_have_the_names_of_the_standard(rt: HostRuntime) -> Result<(), Fail> {
    let alloc = rt.alloc();
    for row in lines_of(SUB_FUNCTIONS) {
        let (digits, name) = row.split_once(' ').ok_or("no name")?;
        let found = match bytes_of(alloc, digits)?.as_slice() {
            [service, sub_function] => sub_function_name(*service, *sub_function),
            _ => None,
        };
        assert_text(&rt, row, found.unwrap_or("-"), name);
    }
    Ok(())
}

#[test]
fn identifiers_have_the_names_of_the_standard(rt: HostRuntime) -> Result<(), Fail> {
    let alloc = rt.alloc();
    for row in lines_of(DATA_IDENTIFIERS) {
        let (digits, name) = row.split_once(' ').ok_or("no name")?;
        let found = match bytes_of(alloc, digits)?.as_slice() {
            [high, low] => data_identifier_name(u16::from_be_bytes([*high, *low])),
            _ => None,
        };
        assert_text(&rt, row, found.unwrap_or("-"), name);
    }
    for row in lines_of(ROUTINES) {
        let (digits, name) = row.split_once(' ').ok_or("no name")?;
        let found = match bytes_of(alloc, digits)?.as_slice() {
            [high, low] => routine_name(u16::from_be_bytes([*high, *low])),
            _ => None,
        };
        assert_text(&rt, row, found.unwrap_or("-"), name);
    }
    Ok(())
}

#[test]
fn response_codes_have_the_names_of_the_standard(rt: HostRuntime) -> Result<(), Fail> {
    let alloc = rt.alloc();
    for row in lines_of(RESPONSE_CODES) {
        let (digits, name) = row.split_once(' ').ok_or("no name")?;
        let code = bytes_of(alloc, digits)?;
        let found = response_code_name(*code.first().ok_or("no code")?);
        assert_text(&rt, row, found.unwrap_or("-"), name);
    }
    Ok(())
}

#[test]
fn services_of_other_standards_have_their_names(rt: HostRuntime) -> Result<(), Fail> {
    let alloc = rt.alloc();
    for row in lines_of(OBD_SERVICES) {
        let (digits, name) = row.split_once(' ').ok_or("no name")?;
        let service = bytes_of(alloc, digits)?;
        let found = obd_service_name(*service.first().ok_or("no service")?);
        assert_text(&rt, row, found.unwrap_or("-"), name);
    }
    for row in lines_of(KWP_SERVICES) {
        let (digits, name) = row.split_once(' ').ok_or("no name")?;
        let service = bytes_of(alloc, digits)?;
        let found = kwp_service_name(*service.first().ok_or("no service")?);
        assert_text(&rt, row, found.unwrap_or("-"), name);
    }
    Ok(())
}

#[test]
fn trouble_codes_are_spelled_as_in_the_standard(rt: HostRuntime) -> Result<(), Fail> {
    let alloc = rt.alloc();
    for row in lines_of(TROUBLE_CODES) {
        let (digits, spelled) = row.split_once(' ').ok_or("no code")?;
        match bytes_of(alloc, digits)?.as_slice() {
            [high, middle, low] => {
                let code = trouble_code(*high, *middle, *low);
                assert_text(&rt, row, str::from_utf8(&code)?, spelled);
            }
            _ => Err("not three bytes")?,
        }
    }
    Ok(())
}

#[test]
fn bits_of_a_status_have_the_names_of_the_standard(rt: HostRuntime) -> Result<(), Fail> {
    let alloc = rt.alloc();
    for row in lines_of(STATUS_BITS) {
        let (digits, name) = row.split_once(' ').ok_or("no name")?;
        let bit = bytes_of(alloc, digits)?;
        let found = status_bit_name(*bit.first().ok_or("no bit")?);
        assert_text(&rt, row, found.unwrap_or("-"), name);
    }
    Ok(())
}

#[test]
fn trouble_codes_stand_where_the_standard_has_them(rt: HostRuntime) -> Result<(), Fail> {
    let alloc = rt.alloc();
    for row in lines_of(TROUBLE_RECORDS) {
        let (digits, records) = row.split_once(' ').ok_or("no codes")?;
        let response = bytes_of(alloc, digits)?;
        let found = digits_of(alloc, trouble_records(&response))?;
        let found = if found.is_empty() {
            "-"
        } else {
            found.as_str()
        };
        assert_text(&rt, row, found, records);
    }
    Ok(())
}
