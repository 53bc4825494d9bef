//! A law of the definitions: its function has the law for its contract, and does nothing.
ghost use Rattle.track_modes.specs.Laws.{CachingIsForOneCommand};

/// What CLIENT CACHING said holds while the next command runs, whatever that is, and no longer.
pub fn law_caching_is_for_one_command()
    ensures { CachingIsForOneCommand }
{}
