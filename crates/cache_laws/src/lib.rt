//! What a client holds, told by its log from the outside: each function is a law, and does
//! nothing.
#![tactic(auto)]

ghost use Rattle.cache_laws.specs.HeldExactly.{HoldsExactly};

/// Of every legal log: what is held is, once each, the reply to a fetch that nothing ended, that no
/// later one replaced and whose key was not displaced since, and nothing else. It stays until an
/// entry ends it, or a reply to a fetch of another key finds exactly as many keys held as the
/// capacity, none of them last used before its own. An Ask of it is a hit, and no other Ask is.
pub fn law_held_exactly()
    ensures { HoldsExactly }
{}
