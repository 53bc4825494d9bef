//! What holds of every storm that a world plays: each function is a law, and does nothing.
#![tactic(auto)]

ghost use Rattle.storm_laws.specs.Storms.{StormsArePlayed};

use world_run::law_one_history;

/// No event of a storm is refused: only a client's full log stops one, whatever the limits of the
/// server and of the clients' logs.
pub fn law_storms_are_played()
    ensures { StormsArePlayed }
{
    law_one_history();
}
