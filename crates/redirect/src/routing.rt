//! Where an invalidation for a connection goes (the page of CLIENT TRACKING, REDIRECT).
ghost use Rattle.std.specs.Prelude.{◌≡◌};
ghost use Rattle.redirect.specs.Routes.{direct_route, lost_route, peer_route};
ghost use Rattle.redirect.specs.Routes.{is_broken, route_of};

use super::routes::Route;
use resp_value::Proto;
use track_modes::{Mode, Peer, Tracking};

fn direct_route(own: u64, proto: Proto) -> Route
    ensures { result ≡ direct_route own proto }
{
    match proto {
        Proto::Two => Route::Nowhere,
        Proto::Three => Route::Push(own),
    }
}

fn peer_route(to: u64, peer: Peer) -> Route
    ensures { result ≡ peer_route to peer }
{
    match peer.proto {
        Proto::Three => Route::Push(to),
        Proto::Two => {
            if peer.subscribed {
                Route::Message(to)
            } else {
                Route::Nowhere
            }
        }
    }
}

fn lost_route(own: u64, proto: Proto) -> Route
    ensures { result ≡ lost_route own proto }
{
    match proto {
        Proto::Two => Route::Nowhere,
        Proto::Three => Route::BrokenNotice(own),
    }
}

/// Where an invalidation for the connection `own` goes, which has this mode. `target` is what is
/// known of the connection that the mode redirects to, `None` where that has ended.
pub fn route(mode: &Mode, own: u64, target: Option<Peer>) -> Route
    ensures { result ≡ route_of own target mode.now }
{
    let proto = mode.peer().proto;
    match mode.tracking() {
        Tracking::Off => Route::Nowhere,
        Tracking::On(settings) => match settings.redirect {
            None => direct_route(own, proto),
            Some(to) => match target {
                Some(peer) => peer_route(to, peer),
                None => lost_route(own, proto),
            },
        },
    }
}

/// Whether an invalidation that is due finds the connection that the mode redirects to ended. The
/// redirection is then broken, whatever the route.
pub fn is_broken(mode: &Mode, target: Option<Peer>) -> bool
    ensures { result ≡ is_broken target mode.now }
{
    match mode.tracking() {
        Tracking::Off => false,
        Tracking::On(settings) => settings.redirect.is_some() && target.is_none(),
    }
}
