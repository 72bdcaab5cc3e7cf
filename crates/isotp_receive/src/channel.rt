//! The channels of a session: on which identifier a frame stands, and what may be sent on it.

ghost use Rattle.std.specs.Prelude.{◌≡◌};
ghost use Rattle.isotp_receive.specs.Channels.{dir_of, channel_of, is_functional};

use direction::Dir;

/// On which of the identifiers of a session a frame stands (ISO 15765-2, section 5.3.4). The first two have a reception each; on
/// the third none begins.
#[derive(Clone, Copy, Debug, PartialEq, Eq)]
pub enum Channel {
    /// From the tester to the control unit.
    Tester,
    /// From the control unit to the tester.
    Unit,
    /// From the tester to all control units. Every message on it is one single frame.
    Functional,
}

impl Channel {
    /// The channel on which a side sends to the other alone.
    #[inline(always)]
    pub fn of(dir: Dir) -> Channel
        ensures { result ≡ channel_of dir }
    {
        match dir {
            Dir::Tester => Channel::Tester,
            Dir::Unit => Channel::Unit,
        }
    }

    /// Whether this is the channel on which the tester asks all units.
    #[inline(always)]
    pub fn is_functional(self) -> bool
        ensures { result ≡ is_functional self }
    {
        match self {
            Channel::Functional => true,
            Channel::Tester | Channel::Unit => false,
        }
    }

    /// The side that sends on this channel: the tester on two of them.
    #[inline(always)]
    pub fn dir(self) -> Dir
        ensures { result ≡ dir_of self }
    {
        match self {
            Channel::Tester | Channel::Functional => Dir::Tester,
            Channel::Unit => Dir::Unit,
        }
    }
}
