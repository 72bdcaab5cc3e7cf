//! Long names, which a narrow screen may part.

ghost use Rattle.std.specs.Prelude.{◌≡◌};
ghost use Rattle.pair_words.specs.LongNames.{letter_behind, parted_name};
ghost use Rattle.pair_words.specs.LongNames as Spec;

use text_parts::{Part, When, say};
use trace_io::TextSink;
use trace_text::{Byte, ResponseCode, ServiceName};
use uds_message::{code_name, service_name};
use uds_names::response_code_name;

/// The name of a service, which may be parted, or its identifier where it has none.
#[derive(Clone, Copy)]
pub struct PartedService(pub u8);

impl Part for PartedService {
    ghost use Rattle.pair_words.specs.LongNames.{parted_service};

    ghost text = { λ service. parted_service service.0 };

    fn say<S: TextSink>(self, out: &mut S) {
        match service_name(self.0) {
            Some(name) => say_parted(name.as_bytes(), out),
            None => say(out, ServiceName(self.0)),
        }
    }
}

/// The name of a response code, which may be parted, or what a page tells where `list` has none.
#[derive(Clone, Copy)]
pub struct PartedCode(pub u8);

impl Part for PartedCode {
    ghost use Rattle.pair_words.specs.LongNames.{parted_code};

    ghost text = { λ why. parted_code why.0 };

    fn say<S: TextSink>(self, out: &mut S) {
        match code_name(self.0) {
            Some(name) => say_parted(name.as_bytes(), out),
            None => say(out, FurtherCode(self.0)),
        }
    }
}

/// A response code of which `list` has no name: by its name and its digits, or by its number where it has none.
#[derive(Clone, Copy)]
struct FurtherCode(u8);

impl Part for FurtherCode {
    ghost use Rattle.pair_words.specs.LongNames.{further_code};

    ghost text = { λ why. further_code why.0 };

    fn say<S: TextSink>(self, out: &mut S) {
        match response_code_name(self.0) {
            Some(name) => say(out, (PartedName(name), " ", Byte(self.0))),
            None => say(out, ResponseCode(self.0)),
        }
    }
}

/// A name, which may be parted.
#[derive(Clone, Copy)]
struct PartedName<'a>(&'a str);

impl<'a> Part for PartedName<'a> {
    ghost use Rattle.pair_words.specs.LongNames.{parted_name};

    ghost text = { λ name. parted_name name.0.now };

    fn say<S: TextSink>(self, out: &mut S) {
        say_parted(self.0.as_bytes(), out);
    }
}

/// Says a name, which may be parted before each capital behind a small letter.
fn say_parted<S: TextSink>(name: &[u8], out: &mut S)
    ensures { S.says out.old (parted_name name.now) out.new }
{
    let mut front: u8 = 0;
    'letters: for at in 0..name.len() {
        let letter = name[at];
        say_letter(front, letter, out);
        front = letter;
    }
}

/// Says a letter behind another one, and where the name may be parted before it.
fn say_letter<S: TextSink>(front: u8, letter: u8, out: &mut S)
    ensures { S.says out.old (letter_behind front letter) out.new }
{
    say(out, When(parts_before(front, letter), "<wbr>"));
    out.put(&[letter]);
}

/// Whether a name may be parted before a letter, behind another one.
fn parts_before(front: u8, letter: u8) -> bool
    ensures { result ≡ Spec.parts_before front letter }
{
    matches!(front, b'a'..=b'z') && matches!(letter, b'A'..=b'Z')
}
