//! The lines of the schedule that is measured.
ghost use Rattle.std.specs.Prelude.{◌<◌};

use resp_value::NoMemory;
use std::alloc::{AllocError, Global};

/// Numbers below a thousand, far from one another.
fn drawn(step: u64) -> u64 {
    step.wrapping_mul(2654435761) % 1000
}

/// The line that makes the client of that number.
pub fn client_line(alloc: Global, number: u64) -> Result<String, AllocError> {
    format!(in alloc; "client c{number} single 3 default 1000")
}

fn ask_line(alloc: Global, clients: u64, step: u64) -> Result<String, AllocError>
    requires { 0 < clients }
{
    let client = step.wrapping_add(step / 10) % clients;
    let key = drawn(step);
    format!(in alloc; "ask c{client} GET k{key}")
}

fn set_line(alloc: Global, step: u64) -> Result<String, AllocError> {
    let key = drawn(step);
    format!(in alloc; "say w SET k{key} v{step}")
}

/// The line of that step: nine of ten ask a client for a key; of the others each second one has a
/// raw connection set a key, and each second one lets every link flow.
pub fn line_of(alloc: Global, clients: u64, step: u64) -> Result<String, NoMemory>
    requires { 0 < clients }
{
    if step % 10 != 0 {
        return Ok(ask_line(alloc, clients, step)?);
    }
    if step % 20 != 0 {
        return Ok(set_line(alloc, step)?);
    }
    Ok(String::from_str(alloc, "flow")?)
}
