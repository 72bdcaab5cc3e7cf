//! Names that the standards have for the first bytes of a message, behind these.
ghost use Rattle.std.specs.Prelude.{◌≡◌, ◌+◌, ◌*◌};
ghost use Rattle.shown_bytes.specs.StandardNames as Spec;

use text_parts::{Part, When, say};
use trace_io::TextSink;
use trace_text::{Byte, ResponseCode};
use uds_message::{is_response_sid, service_answered};
use uds_names::{
    data_identifier_name, kwp_service_name, obd_service_name, response_code_name, routine_name,
    sub_function_name,
};

/// The service identifier of ReadDataByIdentifier.
const READ_DATA_BY_IDENTIFIER: u8 = 0x22;

/// The service identifier of SecurityAccess.
const SECURITY_ACCESS: u8 = 0x27;

/// The service identifier of RoutineControl.
const ROUTINE_CONTROL: u8 = 0x31;

/// The bit of a sub-function by which the tester asks for no positive response.
const SUPPRESS_POSITIVE_RESPONSE: u8 = 0x80;

/// A response code, as a page tells it: with its digits, where its name is none of those that `list` says.
#[derive(Clone, Copy)]
pub struct PageCode(pub u8);

impl Part for PageCode {
    ghost use Rattle.shown_bytes.specs.StandardNames.{page_code};

    ghost text = { λ code. page_code code.0 };

    fn say<S: TextSink>(self, out: &mut S) {
        match response_code_name(self.0) {
            Some(name) => say(out, (name, " ", Byte(self.0))),
            None => say(out, ResponseCode(self.0)),
        }
    }
}

/// The names behind the bytes of a message: of its sub-function, and of the first data identifier or routine.
#[derive(Clone, Copy)]
pub(crate) struct NamesText<'a>(pub &'a [u8]);

impl<'a> Part for NamesText<'a> {
    ghost use Rattle.shown_bytes.specs.StandardNames.{names_text};

    ghost text = { λ bytes. names_text bytes.0.now };

    fn say<S: TextSink>(self, out: &mut S) {
        if let Some((first, parameters)) = self.0.split_first() {
            if is_response_sid(*first) {
                say(out, ResponseNames(service_answered(*first), parameters));
            } else {
                say(out, RequestNames(*first, parameters));
            }
        }
    }
}

/// The names behind the bytes of a request of this service.
#[derive(Clone, Copy)]
struct RequestNames<'a>(u8, &'a [u8]);

impl<'a> Part for RequestNames<'a> {
    ghost use Rattle.shown_bytes.specs.StandardNames.{request_names};

    ghost text = { λ names. request_names names.0 names.1.now };

    fn say<S: TextSink>(self, out: &mut S) {
        let RequestNames(service, parameters) = self;
        if !asks_for_several(service, parameters) {
            say(
                out,
                (ForeignService(service), ParameterNames(service, parameters)),
            );
        }
    }
}

/// The names behind the bytes of a positive response to this service.
#[derive(Clone, Copy)]
struct ResponseNames<'a>(u8, &'a [u8]);

impl<'a> Part for ResponseNames<'a> {
    ghost use Rattle.shown_bytes.specs.StandardNames.{response_names};

    ghost text = { λ names. response_names names.0 names.1.now };

    fn say<S: TextSink>(self, out: &mut S) {
        let ResponseNames(service, parameters) = self;
        if repeats_sub_function(service, parameters) {
            say(out, ParameterNames(service, parameters));
        }
    }
}

/// Whether a request asks for more than one data identifier: a name behind it would stand behind the last.
fn asks_for_several(service: u8, parameters: &[u8]) -> bool
    ensures { result ≡ Spec.asks_for_several service parameters.now }
{
    service == READ_DATA_BY_IDENTIFIER && parameters.len() > 2
}

/// Whether a positive response to this service repeats the sub-function, if the service has one: without bit 7.
fn repeats_sub_function(service: u8, parameters: &[u8]) -> bool
    ensures { result ≡ Spec.repeats_sub_function service parameters.now }
{
    match parameters {
        [] => true,
        [sub_function, ..] => {
            has_data_identifier(service) || *sub_function < SUPPRESS_POSITIVE_RESPONSE
        }
    }
}

/// The name of a service that is none of UDS, marked with where it is from.
#[derive(Clone, Copy)]
struct ForeignService(u8);

impl Part for ForeignService {
    ghost use Rattle.shown_bytes.specs.StandardNames.{foreign_service};

    ghost text = { λ service. foreign_service service.0 };

    fn say<S: TextSink>(self, out: &mut S) {
        let obd = obd_service_name(self.0);
        let kwp = kwp_service_name(self.0);
        say(out, (SmallName("OBD: ", obd), SmallName("KWP2000: ", kwp)));
    }
}

/// The names of what stands behind the identifier of this service.
#[derive(Clone, Copy)]
struct ParameterNames<'a>(u8, &'a [u8]);

impl<'a> Part for ParameterNames<'a> {
    ghost use Rattle.shown_bytes.specs.StandardNames.{parameter_names};

    ghost text = { λ names. parameter_names names.0 names.1.now };

    fn say<S: TextSink>(self, out: &mut S) {
        let ParameterNames(service, parameters) = self;
        if has_data_identifier(service) {
            say(out, IdentifierText(parameters));
        } else if let Some((sub_function, rest)) = parameters.split_first() {
            say(
                out,
                (
                    SubFunctionText(service, *sub_function),
                    When(service == ROUTINE_CONTROL, RoutineText(rest)),
                ),
            );
        }
    }
}

/// Whether a data identifier stands behind the identifier of a service.
fn has_data_identifier(service: u8) -> bool
    ensures { result ≡ Spec.has_data_identifier service }
{
    matches!(service, 0x22 | 0x24 | 0x2E | 0x2F)
}

/// The name of the data identifier that bytes begin with.
#[derive(Clone, Copy)]
struct IdentifierText<'a>(&'a [u8]);

impl<'a> Part for IdentifierText<'a> {
    ghost use Rattle.shown_bytes.specs.StandardNames.{identifier_text};

    ghost text = { λ bytes. identifier_text bytes.0.now };

    fn say<S: TextSink>(self, out: &mut S) {
        match self.0 {
            [high, low, ..] => {
                let name = data_identifier_name(identifier(*high, *low));
                say(out, SmallName("", name));
            }
            _ => {}
        }
    }
}

/// The name of the routine that bytes begin with.
#[derive(Clone, Copy)]
struct RoutineText<'a>(&'a [u8]);

impl<'a> Part for RoutineText<'a> {
    ghost use Rattle.shown_bytes.specs.StandardNames.{routine_text};

    ghost text = { λ bytes. routine_text bytes.0.now };

    fn say<S: TextSink>(self, out: &mut S) {
        match self.0 {
            [high, low, ..] => {
                let name = routine_name(identifier(*high, *low));
                say(out, SmallName("", name));
            }
            _ => {}
        }
    }
}

/// The number that two bytes spell, the higher one first.
fn identifier(high: u8, low: u8) -> u16
    ensures { result ≡ 256 * high + low }
{
    256 * u16::from(high) + u16::from(low)
}

/// The name of a sub-function of a service; behind that of a level of SecurityAccess its digits.
#[derive(Clone, Copy)]
struct SubFunctionText(u8, u8);

impl Part for SubFunctionText {
    ghost use Rattle.shown_bytes.specs.StandardNames.{sub_function_text};

    ghost text = { λ sub. sub_function_text sub.0 sub.1 };

    fn say<S: TextSink>(self, out: &mut S) {
        let SubFunctionText(service, sub_function) = self;
        let name = sub_function_name(service, sub_function);
        if service == SECURITY_ACCESS {
            say(
                out,
                LevelName(name, sub_function % SUPPRESS_POSITIVE_RESPONSE),
            );
        } else {
            say(out, SmallName("", name));
        }
    }
}

/// A name behind a mark, if there is one.
#[derive(Clone, Copy)]
struct SmallName(&'static str, Option<&'static str>);

impl Part for SmallName {
    ghost use Rattle.std.specs.Prelude.{option_map};
    ghost use Rattle.shown_bytes.specs.StandardNames.{small_name};

    ghost text = { λ small. small_name small.0.now (option_map (λ name. name.now) small.1) };

    fn say<S: TextSink>(self, out: &mut S) {
        let SmallName(mark, name) = self;
        if let Some(name) = name {
            say(out, (" <i>(", mark, name, ")</i>"));
        }
    }
}

/// A name before the digits of a level, if there is one.
#[derive(Clone, Copy)]
struct LevelName(Option<&'static str>, u8);

impl Part for LevelName {
    ghost use Rattle.std.specs.Prelude.{option_map};
    ghost use Rattle.shown_bytes.specs.StandardNames.{level_name};

    ghost text = { λ level. level_name (option_map (λ name. name.now) level.0) level.1 };

    fn say<S: TextSink>(self, out: &mut S) {
        let LevelName(name, level) = self;
        if let Some(name) = name {
            say(out, (" <i>(", name, " ", Byte(level), ")</i>"));
        }
    }
}
