//! Turns of a client, where a value that it has no room for ends its link.
ghost use Rattle.std.specs.Prelude.{◌≡◌, IfOk, OnErr, OnOk};
ghost use Rattle.shared_cache.specs.Laws.{IsCall, LegalLog};
ghost use Rattle.shared_cache.specs.Steps.{MayRunOut, client_step};
ghost use Rattle.client_library.specs.Library.{closed, got, is_full, with_log};

use resp_value::{NoMemory, Value};
use shared_cache::{ClientCall, ClientRefusal, ClientReply, ClientState, Wire};

/// A turn: the step of its log, or memory ran out and the log is as before.
fn turn(state: &mut ClientState, call: ClientCall) -> Result<ClientReply, NoMemory>
    requires { IsCall state.old.setup.mode call }
    ensures setup { state.new.setup ≡ state.old.setup }
    ensures step { IfOk result (λ r. client_step state.old.setup state.old.past call
        ≡ record { reply = r; past = state.new.past }) }
    ensures legal { LegalLog state.old.setup state.old.past
        → LegalLog state.new.setup state.new.past }
    ensures err { OnErr result (state.new ≡ state.old) }
    ensures room { OnErr result (MayRunOut state.old.setup state.old.past call) }
{
    match state.turn(call) {
        ClientReply::Refused(refusal) => match refusal {
            ClientRefusal::NoMemory => Err(NoMemory),
            refusal => Ok(ClientReply::Refused(refusal)),
        },
        reply => Ok(reply),
    }
}

/// Its link ends, if it has not.
pub fn close(state: &mut ClientState)
    ensures closed { state.new ≡ with_log state.old (closed state.old.setup state.old.past) }
    ensures legal { LegalLog state.old.setup state.old.past
        → LegalLog state.new.setup state.new.past }
{
    match turn(state, ClientCall::End(Wire::Main)) {
        Ok(_) => {}
        // an end has its room from the start
        Err(_) => unreachable!(),
    }
}

/// Whether it is refused since the log is full.
fn is_full(reply: ClientReply) -> bool
    ensures { result ≡ is_full reply }
{
    match reply {
        ClientReply::Refused(ClientRefusal::LogFull { .. }) => true,
        _ => false,
    }
}

/// A value is got. One that finds no room in the log, or in memory, would be lost: its link ends.
pub fn get(state: &mut ClientState, value: Value) -> Result<(), NoMemory>
    ensures ok { OnOk result (state.new
        ≡ with_log state.old (got state.old.setup value state.old.past)) }
    ensures err { OnErr result (state.new
        ≡ with_log state.old (closed state.old.setup state.old.past)) }
    ensures legal { LegalLog state.old.setup state.old.past
        → LegalLog state.new.setup state.new.past }
{
    match turn(state, ClientCall::Got(Wire::Main, value)) {
        Ok(reply) => {
            if is_full(reply) {
                close(state);
                return Ok(());
            }
            Ok(())
        }
        Err(_) => {
            close(state);
            Err(NoMemory)
        }
    }
}
