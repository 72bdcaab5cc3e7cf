//! The names of files as a hint has them.

ghost use Rattle.std.specs.Prelude.{◌≡◌};
ghost use Rattle.udsnorm.specs.Names.{before_name};

use line_text::Quoted;
use text_parts::{Part, say};
use trace_io::TextSink;

/// The name of a log, which has none if it is standard input.
#[derive(Clone, Copy)]
pub(crate) struct LogName<'a>(pub Option<&'a str>);

impl<'a> Part for LogName<'a> {
    ghost use Rattle.std.specs.Prelude.{option_map};
    ghost use Rattle.udsnorm.specs.Names.{log_name};

    ghost text = { λ log. log_name (option_map (λ t. t.now) log.0) };

    fn say<S: TextSink>(self, out: &mut S) {
        match self.0 {
            Some(name) => say(out, Quoted(name.as_bytes())),
            None => say(out, "standard input"),
        }
    }
}

/// The name of a log behind a command, where it has one.
#[derive(Clone, Copy)]
pub(crate) struct Behind<'a>(pub Option<&'a str>);

impl<'a> Part for Behind<'a> {
    ghost use Rattle.std.specs.Prelude.{option_map};
    ghost use Rattle.udsnorm.specs.Names.{behind_command};

    ghost text = { λ log. behind_command (option_map (λ t. t.now) log.0) };

    fn say<S: TextSink>(self, out: &mut S) {
        match self.0 {
            Some(name) => say(out, NameBehind(name.as_bytes())),
            None => {}
        }
    }
}

/// A name behind a command.
#[derive(Clone, Copy)]
struct NameBehind<'a>(&'a [u8]);

impl<'a> Part for NameBehind<'a> {
    ghost use Rattle.std.specs.Prelude.{Some};
    ghost use Rattle.udsnorm.specs.Names.{behind_command};

    ghost text = { λ name. behind_command (Some name.0.now) };

    fn say<S: TextSink>(self, out: &mut S) {
        let name = self.0;
        say(out, (before_name(name), Quoted(name)));
    }
}

/// What stands between a command and a name. Behind `--` one that begins with a dash is no option.
fn before_name(name: &[u8]) -> &'static str
    ensures { result.now ≡ before_name name.now }
{
    match name.first() {
        Some(byte) if *byte == b'-' => " -- ",
        _ => " ",
    }
}
