//! CLIENT GETREDIR and CLIENT TRACKINGINFO: what a connection is told of how it tracks.
ghost use Rattle.std.specs.Prelude.{◌≡◌, IfOk, map};
ghost use Rattle.resp_value.specs.Tree.{blob};
ghost use Rattle.resp_value.specs.declared.value.Value.TheVariants.{Map};
ghost use Rattle.serial_model.specs.Modes.{redirect_number, tracking_info};
ghost use Rattle.server_book.specs.Places.{HasNumber};

use super::hello::blob;
use resp_value::{NoMemory, Octets, Pairs, Value, Values};
use std::alloc::Global;
use track_modes::{Mode, Tracking};

// Words as values.
fn blobs(alloc: Global, words: &[Octets]) -> Result<Values, NoMemory>
    ensures { IfOk result (λ v. v ≡ map blob words.now) }
{
    let mut values = Values::new(alloc);
    for word in words {
        values.push(Value::Blob(word.copy()?))?;
    }
    Ok(values)
}

/// The connection that messages are redirected to: -1 where tracking is off, 0 where there is none.
pub fn redirect_number(mode: &Mode) -> i64
    requires { HasNumber mode.now }
    ensures { result ≡ redirect_number mode.now.tracking }
{
    match mode.tracking() {
        Tracking::Off => -1,
        Tracking::On(settings) => match settings.redirect {
            Some(target) => target as i64,
            None => 0,
        },
    }
}

/// The reply to CLIENT TRACKINGINFO.
pub fn tracking_info(alloc: Global, is_broken: bool, mode: &Mode) -> Result<Value, NoMemory>
    requires { HasNumber mode.now }
    ensures { IfOk result (λ v. v ≡ Map (tracking_info is_broken mode.now)) }
{
    let flags = mode.flags(is_broken)?;
    let flags = blobs(alloc, flags.as_slice())?;
    let prefixes = blobs(alloc, mode.tracking().prefixes())?;
    let mut rows = Pairs::new(alloc);
    rows.push(blob(alloc, b"flags")?, Value::Set(flags))?;
    rows.push(
        blob(alloc, b"redirect")?,
        Value::Number(redirect_number(mode)),
    )?;
    rows.push(blob(alloc, b"prefixes")?, Value::Array(prefixes))?;
    Ok(Value::Map(rows))
}
