//! A command as a program writes it.
ghost use Rattle.std.specs.Prelude.{◌≡◌, ◌<◌, IfOk, IfSome, length};
ghost use Rattle.client_library.specs.Requests.{first_request};

use resp_stream::{RequestReader, StreamFault};
use resp_value::{NoMemory, Words};
use std::alloc::Global;

/// The words of the first request, written as it would be sent to the server: an array of blobs, or
/// a line of words. Nothing where the bytes begin with no whole request; what follows is not read.
pub fn read_words(alloc: Global, request: &[u8]) -> Result<Option<Words>, NoMemory>
    ensures first { IfOk result (λ w. w ≡ first_request request.now) }
    ensures words { IfOk result (λ w. IfSome w (λ ws. 0 < length ws)) }
{
    let mut reader = RequestReader::new(alloc);
    reader.feed(request)?;
    match reader.next_request() {
        Ok(words) => Ok(words),
        Err(fault) => match fault {
            StreamFault::NoMemory => Err(NoMemory),
            _ => Ok(None),
        },
    }
}
