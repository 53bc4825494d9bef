//! A connection's mode.
ghost use Rattle.std.specs.Prelude.{◌≡◌, ◌&&◌, OnOk, OnErr, IfErr, IfOk, None, Some, true, false};
ghost use Rattle.std.specs.Str.{bytes_eq};
ghost use Rattle.track_modes.specs.Commands.{after_command, after_refusal, allows, changed};
ghost use Rattle.track_modes.specs.Commands.{command_fault, fault_at, is_caching_command};
ghost use Rattle.track_modes.specs.Commands.{is_for_subscribers, may_register, proto_after};
ghost use Rattle.track_modes.specs.Commands.{registers, spent_mode};
ghost use Rattle.track_modes.specs.ModeState.{flags, new_mode, peer_of, remembers_read};
ghost use Rattle.track_modes.specs.Tracked.{IsRefusal, caching_fault, tracked};
ghost use Rattle.track_modes.specs.Tracked.{tracking_fault};

use super::check::check;
use super::fault::ModeFault;
use super::peer::Peer;
use super::tracking::Tracking;
use command_words::{Command, TrackOptions};
use resp_value::{NoMemory, Octets, Proto, Words};
use std::alloc::Global;
use std::marker::Model;

/// The channel of invalidations, which alone is served.
pub const INVALIDATION_CHANNEL: &[u8] = b"__redis__:invalidate";

/// What a connection's own commands make of it: its protocol, whether it is subscribed, whether
/// and how it tracks, and whether the command before was CLIENT CACHING, accepted.
#[derive(Debug, Drop)]
pub struct Mode {
    alloc: Global,
    proto: Proto,
    subscribed: bool,
    tracking: Tracking,
    caching: bool,
}

impl Model for Mode {
    ghost use Rattle.track_modes.specs.ModeState.{ModeState};

    ghost Value = { ModeState };

    ghost view = { λ m.
        record {
          proto = m.proto;
          subscribed = m.subscribed;
          tracking = m.tracking;
          caching = m.caching;
        } };
}

impl Mode {
    /// As a connection is admitted: RESP2, not subscribed, tracking off. It takes no memory.
    pub fn new(alloc: Global) -> Mode
        ensures { result ≡ new_mode }
    {
        Mode {
            alloc,
            proto: Proto::Two,
            subscribed: false,
            tracking: Tracking::Off,
            caching: false,
        }
    }

    /// An equal mode. Only prefixes take memory.
    pub fn copy(&self) -> Result<Mode, NoMemory>
        ensures { IfOk result (λ m. m ≡ self.now) }
    {
        Ok(Mode {
            alloc: self.alloc,
            proto: self.proto,
            subscribed: self.subscribed,
            tracking: self.tracking.copy()?,
            caching: self.caching,
        })
    }

    /// What the sender of a message to this connection must know of it.
    pub fn peer(&self) -> Peer
        ensures { result ≡ peer_of self.now }
    {
        Peer {
            proto: self.proto,
            subscribed: self.subscribed,
        }
    }

    /// Whether the connection tracks, and how.
    pub fn tracking(&self) -> &Tracking
        ensures { result.now ≡ self.now.tracking }
    {
        &self.tracking
    }

    /// Whether a read that runs now is remembered.
    pub fn remembers_read(&self) -> bool
        ensures { result ≡ remembers_read self.now }
    {
        self.tracking.remembers_read(self.caching)
    }

    /// CLIENT TRACKING with these options; `target_exists` says whether the connection that its
    /// REDIRECT names has not ended. CLIENT CACHING stays in force: `spend` ends it.
    pub fn apply_tracking(
        &mut self,
        options: &TrackOptions,
        target_exists: bool,
    ) -> Result<(), ModeFault>
        ensures ok { OnOk result
            (self.new ≡ record self.old { tracking = tracked options.now self.old.tracking }) }
        ensures accepted { OnOk result
            (tracking_fault options.now target_exists self.old.tracking ≡ None) }
        ensures refused { IfErr result (λ f. IsRefusal (options.now.on && options.now.bcast) f
            (tracking_fault options.now target_exists self.old.tracking)) }
        ensures err { OnErr result (self.new ≡ self.old) }
    {
        check(options, target_exists, &self.tracking)?;
        self.tracking = self.tracking.with_options(self.alloc, options)?;
        Ok(())
    }

    /// CLIENT CACHING YES or NO. It takes no memory.
    pub fn apply_caching(&mut self, yes: bool) -> Result<(), ModeFault>
        ensures ok { OnOk result
            (self.new ≡ record self.old { caching = true }) }
        ensures accepted { OnOk result (caching_fault yes self.old.tracking ≡ None) }
        ensures refused { IfErr result (λ f. caching_fault yes self.old.tracking ≡ Some f) }
        ensures err { OnErr result (self.new ≡ self.old) }
    {
        self.tracking.check_caching(yes)?;
        self.caching = true;
        Ok(())
    }

    /// The end of a command ends what CLIENT CACHING said, unless it was that command. It takes
    /// no memory.
    pub fn spend(&mut self)
        ensures { self.new ≡ spent_mode self.old }
    {
        self.caching = false;
    }

    /// The flags that CLIENT TRACKINGINFO tells, in their order. `is_broken` says that a message
    /// was due after the connection that messages are redirected to had ended.
    pub fn flags(&self, is_broken: bool) -> Result<Words, NoMemory>
        ensures { IfOk result (λ w. w ≡ flags is_broken self.now) }
    {
        self.tracking.flags(self.alloc, self.caching, is_broken)
    }

    /// Whether the connection may run the command: on RESP2 and subscribed, it runs SUBSCRIBE,
    /// UNSUBSCRIBE, PING, QUIT and RESET alone.
    pub fn allows(&self, command: &Command) -> bool
        ensures { result ≡ allows self.now command.now }
    {
        !(self.proto == Proto::Two && self.subscribed) || is_for_subscribers(command)
    }

    // What the command changes, without what its end does.
    #[tactic(auto, unfolding(crate::specs::Commands::fault_at))]
    fn change(&mut self, command: &Command, target_exists: bool) -> Result<(), ModeFault>
        ensures ok { OnOk result (self.new ≡ changed command.now self.old) }
        ensures accepted { OnOk result (fault_at command.now target_exists self.old ≡ None) }
        ensures refused { IfErr result (λ f. IsRefusal (registers command.now) f
            (fault_at command.now target_exists self.old)) }
        ensures err { OnErr result (self.new ≡ self.old) }
    {
        match command {
            Command::ClientTracking(options) => return self.apply_tracking(options, target_exists),
            Command::ClientCaching(yes) => return self.apply_caching(*yes),
            Command::Hello(Some(version)) => self.proto = proto_after(version, self.proto),
            Command::Reset => *self = Mode::new(self.alloc),
            Command::Subscribe(channel) => {
                self.subscribed = is_word(channel, INVALIDATION_CHANNEL) || self.subscribed;
            }
            Command::Unsubscribe(None) => self.subscribed = false,
            Command::Unsubscribe(Some(channel)) => {
                self.subscribed = !is_word(channel, INVALIDATION_CHANNEL) && self.subscribed;
            }
            _ => {}
        }
        Ok(())
    }

    /// One command of the connection, from its beginning to its end. `target_exists` says whether
    /// the connection that REDIRECT names has not ended. A command that the mode doesn't allow
    /// changes nothing, but it is a command and ends what CLIENT CACHING said, as a refused one
    /// does. After want of memory the mode is as before.
    #[tactic(auto, unfolding(crate::specs::Commands::after_command))]
    pub fn apply(&mut self, command: &Command, target_exists: bool) -> Result<(), ModeFault>
        ensures ok { OnOk result (self.new ≡ after_command command.now self.old) }
        ensures accepted { OnOk result (command_fault command.now target_exists self.old ≡ None) }
        ensures refused { IfErr result (λ f. IsRefusal (may_register command.now self.old) f
            (command_fault command.now target_exists self.old)) }
        ensures err { IfErr result (λ f. self.new ≡ after_refusal f self.old) }
    {
        if !self.allows(command) {
            self.spend();
            return Ok(());
        }
        match self.change(command, target_exists) {
            Ok(()) => {
                if !is_caching_command(command) {
                    self.spend();
                }
                Ok(())
            }
            Err(fault) => {
                if !fault.is_no_memory() {
                    self.spend();
                }
                Err(fault)
            }
        }
    }
}

fn is_word(word: &Octets, text: &[u8]) -> bool
    ensures { result ≡ bytes_eq word.now text.now }
{
    word.as_slice() == text
}

fn proto_after(version: &Octets, proto: Proto) -> Proto
    ensures { result ≡ proto_after version.now proto }
{
    if is_word(version, b"2") {
        Proto::Two
    } else if is_word(version, b"3") {
        Proto::Three
    } else {
        proto
    }
}

fn is_for_subscribers(command: &Command) -> bool
    ensures { result ≡ is_for_subscribers command.now }
{
    matches!(
        command,
        Command::Subscribe(_)
            | Command::Unsubscribe(_)
            | Command::Ping(_)
            | Command::Quit
            | Command::Reset
    )
}

fn is_caching_command(command: &Command) -> bool
    ensures { result ≡ is_caching_command command.now }
{
    matches!(command, Command::ClientCaching(_))
}
