//! What is told of words that ask for nothing. The faults display the same texts, but no contract says which text a fault
//! displays.

ghost use Rattle.std.specs.Prelude.{◌≡◌};
ghost use Rattle.command_line.specs.WordsTexts.{config_line, words_text};

use crate::job::WordsFault;
use trace_log::ConfigFault;

/// The text of words that ask for nothing: the parser's, which ends with a line feed, or a line.
pub fn words_text(fault: &WordsFault) -> &[u8]
    ensures { result.now ≡ words_text fault.now }
{
    match fault {
        WordsFault::Help(text) | WordsFault::Words(text) => text.as_bytes(),
        WordsFault::Identifier => b"identifier is not three or eight hexadecimal digits\n",
        WordsFault::Config(fault) => config_line(*fault).as_bytes(),
        WordsFault::Misfit(line) | WordsFault::Unread(line) => line.as_slice(),
        WordsFault::Memory => b"out of memory\n",
    }
}

/// The line of a configuration that there is not.
fn config_line(fault: ConfigFault) -> &'static str
    ensures { result.now ≡ config_line fault }
{
    match fault {
        ConfigFault::IdRange => "identifier out of range\n",
        ConfigFault::SameId => "tester and unit have the same identifier\n",
        ConfigFault::SameFunctional => "functional identifier is that of tester or unit\n",
        ConfigFault::LimitRange => "limit out of range\n",
    }
}
