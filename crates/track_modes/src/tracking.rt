//! How a connection tracks (the page of CLIENT TRACKING). What may not stand together has no value.
ghost use Rattle.std.specs.Prelude.{◌≡◌, ◌++◌, ◌∷◌, ◌&&◌, true, None, Some, IfErr, IfOk, OnOk};
ghost use Rattle.std.specs.Prelude.{OnErr};
ghost use Rattle.track_modes.specs.ModeState.{flag, mode_flags, prefixes_of, tracking_flags};
ghost use Rattle.track_modes.specs.ModeState.{remembers_by, remembers_in};
ghost use Rattle.track_modes.specs.PrefixLists.{AreInOrder, registered};
ghost use Rattle.track_modes.specs.Tracked.{caching_fault, caching_fault_in};
ghost use Rattle.track_modes.specs.Tracked.{track_mode, tracked};

use super::fault::ModeFault;
use super::prefixes::Prefixes;
use command_words::TrackOptions;
use resp_value::{NoMemory, Octets, Words};
use std::alloc::Global;

/// Which keys a connection that tracks is sent invalidations of.
#[derive(Debug, Drop)]
pub enum TrackMode {
    /// Those that it reads.
    Default,
    /// Those that it reads right after CLIENT CACHING YES.
    OptIn,
    /// Those that it reads, but not right after CLIENT CACHING NO.
    OptOut,
    /// Those that start with one of these prefixes, whether it reads them or not.
    Bcast(Prefixes),
}

/// What an accepted CLIENT TRACKING ON has put in force.
#[derive(Debug, Drop)]
pub struct Settings {
    pub mode: TrackMode,
    /// The connection that messages are sent to in place of this one.
    pub redirect: Option<u64>,
    /// No messages for keys that the connection itself changes.
    pub noloop: bool,
}

/// Whether a connection tracks, and how.
#[derive(Debug, Drop)]
pub enum Tracking {
    Off,
    On(Settings),
}

fn put_flag(words: &mut Words, alloc: Global, holds: bool, name: &[u8]) -> Result<(), NoMemory>
    ensures { OnOk result (words.new ≡ words.old ++ flag holds name.now) }
{
    if holds {
        words.push(Octets::from_slice(alloc, name)?)?;
    }
    Ok(())
}

fn put_opt(
    words: &mut Words,
    alloc: Global,
    name: &[u8],
    is_caching: bool,
    caching: &[u8],
) -> Result<(), NoMemory>
    ensures { OnOk result (words.new ≡ words.old ++ (name.now ∷ flag is_caching caching.now)) }
{
    put_flag(words, alloc, true, name)?;
    put_flag(words, alloc, is_caching, caching)
}

impl TrackMode {
    fn copy(&self) -> Result<TrackMode, NoMemory>
        ensures { IfOk result (λ m. m ≡ self.now) }
    {
        Ok(match self {
            TrackMode::Default => TrackMode::Default,
            TrackMode::OptIn => TrackMode::OptIn,
            TrackMode::OptOut => TrackMode::OptOut,
            TrackMode::Bcast(prefixes) => TrackMode::Bcast(prefixes.copy()?),
        })
    }

    fn put_flags(&self, words: &mut Words, alloc: Global, caching: bool) -> Result<(), NoMemory>
        ensures { OnOk result (words.new ≡ words.old ++ mode_flags caching self.now) }
    {
        match self {
            TrackMode::Default => Ok(()),
            TrackMode::OptIn => put_opt(words, alloc, b"optin", caching, b"caching-yes"),
            TrackMode::OptOut => put_opt(words, alloc, b"optout", caching, b"caching-no"),
            TrackMode::Bcast(_) => put_flag(words, alloc, true, b"bcast"),
        }
    }

    fn remembers_read(&self, caching: bool) -> bool
        ensures { result ≡ remembers_in caching self.now }
    {
        match self {
            TrackMode::Default => true,
            TrackMode::OptIn => caching,
            TrackMode::OptOut => !caching,
            TrackMode::Bcast(_) => false,
        }
    }

    fn check_caching(&self, is_yes: bool) -> Result<(), ModeFault>
        ensures accepted { OnOk result (caching_fault_in is_yes self.now ≡ None) }
        ensures refused { IfErr result (λ f. caching_fault_in is_yes self.now ≡ Some f) }
    {
        match self {
            TrackMode::OptIn if is_yes => Ok(()),
            TrackMode::OptIn => Err(ModeFault::NoNeedsOptout),
            TrackMode::OptOut if is_yes => Err(ModeFault::YesNeedsOptin),
            TrackMode::OptOut => Ok(()),
            _ => Err(ModeFault::NotOpt),
        }
    }
}

impl Settings {
    fn copy(&self) -> Result<Settings, NoMemory>
        ensures { IfOk result (λ s. s ≡ self.now) }
    {
        Ok(Settings {
            mode: self.mode.copy()?,
            redirect: self.redirect,
            noloop: self.noloop,
        })
    }
}

impl Tracking {
    // An equal value. Only prefixes take memory.
    pub(crate) fn copy(&self) -> Result<Tracking, NoMemory>
        ensures { IfOk result (λ t. t ≡ self.now) }
    {
        match self {
            Tracking::Off => Ok(Tracking::Off),
            Tracking::On(settings) => Ok(Tracking::On(settings.copy()?)),
        }
    }

    /// The prefixes in force, in byte order.
    pub fn prefixes(&self) -> &[Octets]
        ensures list { result.now ≡ prefixes_of self.now }
        ensures order { AreInOrder result.now }
    {
        match self {
            Tracking::On(
                Settings {
                    mode: TrackMode::Bcast(prefixes),
                    ..
                },
            ) => prefixes.as_slice(),
            _ => &[],
        }
    }

    // Whether a read that runs now is remembered.
    pub(crate) fn remembers_read(&self, caching: bool) -> bool
        ensures { result ≡ remembers_by caching self.now }
    {
        match self {
            Tracking::Off => false,
            Tracking::On(settings) => settings.mode.remembers_read(caching),
        }
    }

    // The flags that CLIENT TRACKINGINFO tells, in their order.
    pub(crate) fn flags(
        &self,
        alloc: Global,
        caching: bool,
        is_broken: bool,
    ) -> Result<Words, NoMemory>
        ensures { IfOk result (λ w. w ≡ tracking_flags caching is_broken self.now) }
    {
        let mut words = Words::new(alloc);
        match self {
            Tracking::Off => put_flag(&mut words, alloc, true, b"off")?,
            Tracking::On(settings) => {
                put_flag(&mut words, alloc, true, b"on")?;
                settings.mode.put_flags(&mut words, alloc, caching)?;
                put_flag(&mut words, alloc, settings.noloop, b"noloop")?;
                put_flag(&mut words, alloc, is_broken, b"broken_redirect")?;
            }
        }
        Ok(words)
    }

    // A list of its own of the prefixes in force.
    fn copy_prefixes(&self, alloc: Global) -> Result<Prefixes, NoMemory>
        ensures { IfOk result (λ p. p ≡ prefixes_of self.now) }
    {
        match self {
            Tracking::On(
                Settings {
                    mode: TrackMode::Bcast(prefixes),
                    ..
                },
            ) => prefixes.copy(),
            _ => Ok(Prefixes::new(alloc)),
        }
    }

    // The prefixes that an accepted BCAST leaves, as a list of its own.
    fn registered(&self, alloc: Global, new: &[Octets]) -> Result<Prefixes, NoMemory>
        ensures { IfOk result (λ p. p ≡ registered new.now (prefixes_of self.now)) }
    {
        let mut prefixes = self.copy_prefixes(alloc)?;
        if new.is_empty() {
            prefixes.add(Octets::from_slice(alloc, b"")?)?;
        } else {
            prefixes.add_all(new)?;
        }
        Ok(prefixes)
    }

    fn track_mode(&self, alloc: Global, options: &TrackOptions) -> Result<TrackMode, NoMemory>
        ensures ok { IfOk result (λ m. m ≡ track_mode options.now self.now) }
        ensures err { OnErr result (options.now.bcast ≡ true) }
    {
        if options.bcast {
            let prefixes = self.registered(alloc, options.prefixes.as_slice())?;
            return Ok(TrackMode::Bcast(prefixes));
        }
        if options.optin {
            Ok(TrackMode::OptIn)
        } else if options.optout {
            Ok(TrackMode::OptOut)
        } else {
            Ok(TrackMode::Default)
        }
    }

    // What an accepted CLIENT TRACKING leaves, as a value of its own. Only BCAST takes memory.
    pub(crate) fn with_options(
        &self,
        alloc: Global,
        options: &TrackOptions,
    ) -> Result<Tracking, NoMemory>
        ensures ok { IfOk result (λ t. t ≡ tracked options.now self.now) }
        ensures err { OnErr result ((options.now.on && options.now.bcast) ≡ true) }
    {
        if !options.on {
            return Ok(Tracking::Off);
        }
        Ok(Tracking::On(Settings {
            mode: self.track_mode(alloc, options)?,
            redirect: options.redirect,
            noloop: options.noloop,
        }))
    }

    // Whether CLIENT CACHING is accepted.
    pub(crate) fn check_caching(&self, is_yes: bool) -> Result<(), ModeFault>
        ensures accepted { OnOk result (caching_fault is_yes self.now ≡ None) }
        ensures refused { IfErr result (λ f. caching_fault is_yes self.now ≡ Some f) }
    {
        match self {
            Tracking::Off => Err(ModeFault::NotOpt),
            Tracking::On(settings) => settings.mode.check_caching(is_yes),
        }
    }
}
