//! A turn of a client, and what stops its event.
ghost use Rattle.std.specs.Prelude.{◌≡◌, IfOk, OnErr};
ghost use Rattle.shared_cache.specs.Laws.{IsCall};
ghost use Rattle.shared_cache.specs.Steps.{MayRunOut, client_step};
ghost use Rattle.world_run.specs.ClientMoves.{fault_of, refused_fault};
ghost use Rattle.world_run.specs.MemberTurns.{IsNoValue, TurnGives};

use super::member::Member;
use super::refusal_numbers::{CONTROL, NO_NUMBER};
use resp_value::NoMemory;
use server_links::WorldFault;
use shared_cache::{ClientCall, ClientRefusal, ClientReply, ClientState};

/// A turn: the step of its log, or memory ran out and the log is as before.
pub fn turn(state: &mut ClientState, call: ClientCall) -> Result<ClientReply, NoMemory>
    requires { IsCall state.old.setup.mode call }
    ensures setup { state.new.setup ≡ state.old.setup }
    ensures step { IfOk result (λ r. client_step state.old.setup state.old.past call
        ≡ record { reply = r; past = state.new.past }) }
    ensures err { OnErr result (state.new ≡ state.old) }
    ensures room { OnErr result (MayRunOut state.old.setup state.old.past call) }
{
    match state.turn(call) {
        ClientReply::Refused(refusal) => match refusal {
            ClientRefusal::NoMemory => Err(NoMemory),
            refusal => Ok(ClientReply::Refused(refusal)),
        },
        reply => Ok(reply),
    }
}

/// The fault of a refusal, where it stops its event.
pub fn refused_fault(refusal: ClientRefusal) -> Option<WorldFault>
    ensures { result ≡ refused_fault refusal }
{
    match refusal {
        ClientRefusal::LogFull { entries } => Some(WorldFault::HistoryFull { entries }),
        ClientRefusal::Control => Some(WorldFault::Refused { number: CONTROL }),
        ClientRefusal::NoNumber { .. } => Some(WorldFault::Refused { number: NO_NUMBER }),
        _ => None,
    }
}

/// The fault of an answer, where it stops its event.
pub fn fault_of(reply: &ClientReply) -> Option<WorldFault>
    ensures { result ≡ fault_of reply.now }
{
    match reply {
        ClientReply::Refused(refusal) => refused_fault(*refusal),
        _ => None,
    }
}

impl Member {
    /// A turn in which no value is got.
    pub fn play(&mut self, call: ClientCall) -> Result<ClientReply, WorldFault>
        requires call { IsCall self.old.state.setup.mode call }
        requires no_value { IsNoValue call }
        ensures { TurnGives call self.old result self.new }
    {
        let reply = turn(&mut self.state, call)?;
        if let Some(fault) = fault_of(&reply) {
            return Err(fault);
        }
        Ok(reply)
    }
}
