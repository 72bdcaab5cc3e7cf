//! The names that the standards give what stands behind the first bytes of a message: sub-functions, data identifiers,
//! routines and response codes (ISO 14229-1), and the services of OBD and KWP2000; and how people spell a trouble code.
//!
//! `uds_message` has the names of services and of response codes that the texts of `list` show. Here are those for a
//! reader of a page: each stands once, and none is said in both. They are those of the edition of 2020, and 0F to 13 of
//! ReadDTCInformation those of 2013. A number that is in none of these tables has no name here. A name is a constant:
//! nothing is allocated, and a look-up is a match.
//!
//! ```text
//! sub_function_name(0x10, 0x83)   extendedDiagnosticSession
//! data_identifier_name(0xF190)    VIN
//! response_code_name(0x83)        engineIsRunning
//! trouble_code(0x01, 0x23, 0x45)  P0123-45
//! ```
#![tactic(auto)]

mod identifiers;
pub mod laws;
mod response_codes;
mod services;
mod sub_functions;
mod trouble_codes;

pub use identifiers::{data_identifier_name, routine_name};
pub use response_codes::response_code_name;
pub use services::{kwp_service_name, obd_service_name};
pub use sub_functions::sub_function_name;
pub use trouble_codes::{status_bit_name, trouble_code, trouble_records};
