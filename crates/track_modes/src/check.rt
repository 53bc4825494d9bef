//! Whether CLIENT TRACKING is refused, and why.
ghost use Rattle.std.specs.Prelude.{◌≡◌, OnOk, IfErr, None, false, option_map, not};
ghost use Rattle.std.specs.List.{find};
ghost use Rattle.track_modes.specs.PrefixLists.{do_overlap, overlapped};
ghost use Rattle.track_modes.specs.Tracked.{IsRefusal, has_prefix, on_fault, switches_bcast};
ghost use Rattle.track_modes.specs.Tracked.{switches_opt, tracking_fault};

use super::fault::ModeFault;
use super::prefixes::do_overlap;
use super::tracking::{Settings, TrackMode, Tracking};
use command_words::TrackOptions;
use resp_value::Octets;

// The first prefix in the list that this one overlaps.
fn first_overlapped<'a>(prefix: &Octets, held: &'a [Octets]) -> Option<&'a Octets>
    ensures { option_map (λ old. old.now) result ≡ find (do_overlap prefix.now) held.now }
{
    held.iter().find(|old| do_overlap(prefix, old))
}

// The first prefix, in force or before the next one in the words, that a new one overlaps.
fn overlapped<'a>(held: &'a [Octets], new: &'a [Octets]) -> Option<&'a Octets>
    ensures { option_map (λ old. old.now) result ≡ overlapped held.now new.now }
{
    for (place, prefix) in new.iter().enumerate() {
        let found = first_overlapped(prefix, held);
        if found.is_some() {
            return found;
        }
        let found = first_overlapped(prefix, &new[..place]);
        if found.is_some() {
            return found;
        }
    }
    None
}

fn has_prefix(options: &TrackOptions) -> bool
    ensures { result ≡ has_prefix options.now }
{
    !options.prefixes.as_slice().is_empty()
}

fn switches_bcast(options: &TrackOptions, tracking: &Tracking) -> bool
    ensures { result ≡ switches_bcast options.now tracking.now }
{
    match tracking {
        Tracking::Off => false,
        Tracking::On(settings) => match settings.mode {
            TrackMode::Bcast(_) => !options.bcast,
            _ => options.bcast,
        },
    }
}

fn switches_opt(options: &TrackOptions, tracking: &Tracking) -> bool
    ensures { result ≡ switches_opt options.now tracking.now }
{
    match tracking {
        Tracking::Off => false,
        Tracking::On(settings) => match settings.mode {
            TrackMode::OptIn => options.optout,
            TrackMode::OptOut => options.optin,
            _ => false,
        },
    }
}

// The faults in the order in which they are judged.
fn check_on(
    options: &TrackOptions,
    target_exists: bool,
    tracking: &Tracking,
) -> Result<(), ModeFault>
    ensures ok { OnOk result (on_fault options.now target_exists tracking.now ≡ None) }
    ensures refused { IfErr result
        (λ f. IsRefusal false f (on_fault options.now target_exists tracking.now)) }
{
    if options.redirect.is_some() && !target_exists {
        return Err(ModeFault::NoTarget);
    }
    if has_prefix(options) && !options.bcast {
        return Err(ModeFault::PrefixNeedsBcast);
    }
    if switches_bcast(options, tracking) {
        return Err(ModeFault::SwitchBcast);
    }
    if options.optin && options.optout {
        return Err(ModeFault::BothOpts);
    }
    if options.bcast && (options.optin || options.optout) {
        return Err(ModeFault::OptWithBcast);
    }
    if switches_opt(options, tracking) {
        return Err(ModeFault::SwitchOpt);
    }
    match overlapped(tracking.prefixes(), options.prefixes.as_slice()) {
        Some(old) => Err(ModeFault::Overlap { old: old.copy()? }),
        None => Ok(()),
    }
}

/// Whether CLIENT TRACKING is accepted. With OFF it always is.
pub(crate) fn check(
    options: &TrackOptions,
    target_exists: bool,
    tracking: &Tracking,
) -> Result<(), ModeFault>
    ensures ok { OnOk result (tracking_fault options.now target_exists tracking.now ≡ None) }
    ensures refused { IfErr result
        (λ f. IsRefusal false f (tracking_fault options.now target_exists tracking.now)) }
{
    if options.on {
        check_on(options, target_exists, tracking)
    } else {
        Ok(())
    }
}
