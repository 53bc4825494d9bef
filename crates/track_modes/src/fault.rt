//! Why CLIENT TRACKING and CLIENT CACHING are refused.
ghost use Rattle.std.specs.Prelude.{◌≡◌};
ghost use Rattle.track_modes.specs.Commands.{is_no_memory};
ghost use Rattle.track_modes.specs.declared.fault.ModeFault.TheVariants.{NoMemory};
ghost use Rattle.track_modes.specs.Texts.{mode_fault_text};

use resp_value::{NoMemory, Octets};

/// Why a command that sets how a connection tracks is refused, in the order in which they are
/// judged. All but want of memory are answered by an error reply.
#[derive(Debug, Drop)]
pub enum ModeFault {
    /// The id of REDIRECT is not that of a connection that has not ended.
    NoTarget,
    /// PREFIX stands without BCAST.
    PrefixNeedsBcast,
    /// Tracking is on, with BCAST and the command is without it, or the reverse.
    SwitchBcast,
    /// OPTIN and OPTOUT stand together.
    BothOpts,
    /// BCAST stands with OPTIN or OPTOUT.
    OptWithBcast,
    /// OPTIN while OPTOUT is in force, or the reverse.
    SwitchOpt,
    /// A prefix starts with `old`, or `old` with it: one in force, or one before it in the words.
    Overlap { old: Octets },
    /// CLIENT CACHING with neither OPTIN nor OPTOUT in force.
    NotOpt,
    /// CLIENT CACHING YES while OPTOUT is in force.
    YesNeedsOptin,
    /// CLIENT CACHING NO while OPTIN is in force.
    NoNeedsOptout,
    NoMemory,
}

impl From<NoMemory> for ModeFault {
    ghost from_gives = { λ _ e. e ≡ NoMemory };

    fn from(_: NoMemory) -> Self {
        ModeFault::NoMemory
    }
}

impl ModeFault {
    pub(crate) fn is_no_memory(&self) -> bool
        ensures { result ≡ is_no_memory self.now }
    {
        matches!(self, ModeFault::NoMemory)
    }

    /// The text of the error reply; want of memory has none. It takes no memory.
    pub fn text(&self) -> &'static [u8]
        ensures { result.now ≡ mode_fault_text self.now }
    {
        match self {
            ModeFault::NoTarget => b"ERR no such client to redirect to",
            ModeFault::PrefixNeedsBcast => b"ERR PREFIX needs BCAST",
            ModeFault::SwitchBcast => b"ERR BCAST can't be switched while tracking is on",
            ModeFault::BothOpts => b"ERR OPTIN and OPTOUT exclude each other",
            ModeFault::OptWithBcast => b"ERR OPTIN and OPTOUT are not for BCAST",
            ModeFault::SwitchOpt => {
                b"ERR OPTIN and OPTOUT can't be switched while tracking is on"
            }
            ModeFault::Overlap { .. } => b"ERR prefixes must not overlap",
            ModeFault::NotOpt => b"ERR CLIENT CACHING needs OPTIN or OPTOUT",
            ModeFault::YesNeedsOptin => b"ERR CLIENT CACHING YES needs OPTIN",
            ModeFault::NoNeedsOptout => b"ERR CLIENT CACHING NO needs OPTOUT",
            ModeFault::NoMemory => b"",
        }
    }
}
