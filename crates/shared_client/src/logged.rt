//! The client's state, as it is kept under the turn lock.
ghost use Rattle.std.specs.Prelude.{◌≡◌, ◌<◌, ◌≤◌, [], IfOk};
ghost use Rattle.shared_cache.specs.ClientFields.{IsClientMode};
ghost use Rattle.shared_client.specs.Setups.{setup_of, TurnStep};
ghost use Rattle.turn_lock.specs.Own.{IsWithin};
ghost use Rattle.turn_lock.specs.Seats.{first_seat};

use resp_value::NoMemory;
use shared_cache::{ClientCall, ClientMode, ClientReply, ClientState, LogEntry};
use std::alloc::Global;
use std::marker::Model;
use turn_lock::{Logged, Seat, TurnLock};

/// What a client is made with.
#[derive(Debug, Drop)]
pub struct ClientSetup {
    pub mode: ClientMode,
    /// The most keys of which answers are held.
    pub capacity: u64,
    /// The most entries of its log.
    pub log_max: u64,
}

/// A client that threads take turns on. Contracts see its setup and its log.
#[derive(Drop)]
pub struct SharedClient {
    client: ClientState,
}

impl Model for SharedClient {
    ghost use Rattle.shared_client.specs.Setups.{Shared, made_with};
    ghost use Rattle.std.specs.Coded.{codes};
    ghost use Rattle.resp_value.specs.TreeCoding.{tree_code};

    ghost Value = { Shared };

    ghost coded = { Prim.hlevel (codes, tree_code) };

    ghost view = { λ s. record { setup = made_with s.client.setup; past = s.client.past } };
}

impl SharedClient {
    /// A client whose handshake is queued.
    pub fn new(alloc: Global, setup: ClientSetup) -> Result<SharedClient, NoMemory>
        requires mode { IsClientMode setup.mode }
        requires capacity { (0 < setup.capacity) × (setup.capacity ≤ 1000000) }
        requires log_max { 0 < setup.log_max }
        ensures { IfOk result (λ s. s ≡ record { setup = setup; past = [] }) }
    {
        let ClientSetup {
            mode,
            capacity,
            log_max,
        } = setup;
        Ok(SharedClient {
            client: ClientState::new(alloc, mode, capacity, log_max)?,
        })
    }

    pub fn client(&self) -> &ClientState
        ensures setup { result.now.setup ≡ setup_of self.now.setup }
        ensures past { result.now.past ≡ self.now.past }
    {
        &self.client
    }
}

impl Logged for SharedClient {
    type Setup = ClientSetup;

    type Entry = LogEntry;

    type Call = ClientCall;

    type Reply = ClientReply;

    ghost use Rattle.shared_cache.specs.Laws.{IsCall};

    ghost setup = { λ s. s.setup };

    ghost stands = { λ s past. s.past ≡ past };

    ghost fits = { λ setup call. IsCall setup.mode call };

    ghost step = { TurnStep };

    #[tactic(auto, using(crate::proofs::Did::turned))]
    fn turn(&mut self, call: ClientCall) -> ClientReply {
        self.client.turn(call)
    }
}

/// A lock with a client before its first turn, and its first seat.
pub fn open(
    alloc: Global,
    setup: ClientSetup,
) -> Result<(TurnLock<SharedClient>, Seat<SharedClient>), NoMemory>
    requires mode { IsClientMode setup.mode }
    requires capacity { (0 < setup.capacity) × (setup.capacity ≤ 1000000) }
    requires log_max { 0 < setup.log_max }
    ensures seat { IfOk result (λ r. r.1 ≡ first_seat r.0 setup) }
    ensures within { IfOk result (λ r. IsWithin r.1) }
{
    match TurnLock::create(alloc, SharedClient::new(alloc, setup)?) {
        Ok(opened) => Ok(opened),
        Err(_) => Err(NoMemory),
    }
}

fn is_send<T: Send>(_it: &T) {}

/// The client may be handed to another thread.
pub fn may_cross(client: &SharedClient) {
    is_send(client);
}
