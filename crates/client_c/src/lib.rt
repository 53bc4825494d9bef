//! The client for programs in other languages. `include/zeovalki.h` has each function's contract in
//! plain words; `docs/library.md` says what a program has to keep.
#![tactic(auto)]

ghost use Rattle.client_library.specs.Foreign.{Closes, Copies, OnOpen, TellsCount, TellsEnded};
ghost use Rattle.client_library.specs.Foreign.{TellsNumber};
ghost use Rattle.client_library.specs.Handles.{Asks, Ends, Feeds, Handle, Polls, Sends, TakesOut};
ghost use Rattle.client_library.specs.Handles.{TellsTime};
ghost use Rattle.client_library.specs.contracts.foreign.ForeignClient.{the_row};
ghost use Rattle.client_c.specs.Made.{Makes};
ghost use Rattle.std.specs.Prelude.{◌≡◌, [], Option, Some};
ghost use base.Fraction.{full_share};
ghost use denote.RawPtr.{lies_at};
ghost use types.Logic.{sem};

mod pointer;

use client_library::{ClientOptions, ForeignClient, option_status, status};
use pointer::ClientPointer;
use std::alloc::Global;

fn make(alloc: Global, options: &ClientOptions, prefixes: &[u8], out: &mut ClientPointer) -> u64
    ensures { Makes options.now prefixes.now out.old.client result out.new.client }
{
    let Ok(made) = ForeignClient::new(alloc, options, prefixes) else {
        return status::NO_MEMORY;
    };
    match made {
        Ok(client) => {
            let Ok(client) = Box::new(alloc, client) else {
                return status::NO_MEMORY;
            };
            *out = ClientPointer::of(client);
            status::DONE
        }
        Err(fault) => option_status(fault),
    }
}

/// Makes a client, whose pointer is written where one is made.
#[unsafe(no_mangle)]
pub extern "C" fn zeovalki_new(
    alloc: Global,
    options: &ClientOptions,
    out: &mut ClientPointer,
) -> u64
    ensures { Makes options.now [] out.old.client result out.new.client }
{
    make(alloc, options, b"", out)
}

/// As `zeovalki_new`, with prefixes for BCAST, written as the words of a command.
#[unsafe(no_mangle)]
pub extern "C" fn zeovalki_new_with_prefixes(
    alloc: Global,
    options: &ClientOptions,
    prefixes: &[u8],
    out: &mut ClientPointer,
) -> u64
    ensures { Makes options.now prefixes.now out.old.client result out.new.client }
{
    make(alloc, options, prefixes, out)
}

/// What the server sent next, cut anywhere.
#[unsafe(no_mangle)]
pub unsafe extern "C" fn zeovalki_feed(at: *mut u8, bytes: &[u8]) -> u64
    ghost old: { Option Handle }
    requires* { sem 𝓛 (lies_at the_row full_share at old) }
    ensures* { ∃ₛ λ new. sem 𝓛 (lies_at the_row full_share at new)
        ∗ ⌜ OnOpen (Feeds bytes.now) old result new ⌝ }
{
    let client = &mut *(at as *mut ForeignClient);
    client.feed(bytes)
}

/// The next bytes for the server, at most so many.
#[unsafe(no_mangle)]
pub unsafe extern "C" fn zeovalki_take_out(at: *mut u8, most: u64) -> u64
    ghost old: { Option Handle }
    requires* { sem 𝓛 (lies_at the_row full_share at old) }
    ensures* { ∃ₛ λ new. sem 𝓛 (lies_at the_row full_share at new)
        ∗ ⌜ OnOpen (TakesOut most) old result new ⌝ }
{
    let client = &mut *(at as *mut ForeignClient);
    client.take_out(most)
}

/// Asks the query that the bytes write.
#[unsafe(no_mangle)]
pub unsafe extern "C" fn zeovalki_ask(at: *mut u8, request: &[u8]) -> u64
    ghost old: { Option Handle }
    requires* { sem 𝓛 (lies_at the_row full_share at old) }
    ensures* { ∃ₛ λ new. sem 𝓛 (lies_at the_row full_share at new)
        ∗ ⌜ OnOpen (Asks request.now) old result new ⌝ }
{
    let client = &mut *(at as *mut ForeignClient);
    client.ask(request)
}

/// Sends the command that the bytes write.
#[unsafe(no_mangle)]
pub unsafe extern "C" fn zeovalki_send(at: *mut u8, request: &[u8]) -> u64
    ghost old: { Option Handle }
    requires* { sem 𝓛 (lies_at the_row full_share at old) }
    ensures* { ∃ₛ λ new. sem 𝓛 (lies_at the_row full_share at new)
        ∗ ⌜ OnOpen (Sends request.now) old result new ⌝ }
{
    let client = &mut *(at as *mut ForeignClient);
    client.send(request)
}

/// The reply to the command of that number.
#[unsafe(no_mangle)]
pub unsafe extern "C" fn zeovalki_poll(at: *mut u8, number: u64) -> u64
    ghost old: { Option Handle }
    requires* { sem 𝓛 (lies_at the_row full_share at old) }
    ensures* { ∃ₛ λ new. sem 𝓛 (lies_at the_row full_share at new)
        ∗ ⌜ OnOpen (Polls number) old result new ⌝ }
{
    let client = &mut *(at as *mut ForeignClient);
    client.poll(number)
}

/// The time of the asks that follow.
#[unsafe(no_mangle)]
pub unsafe extern "C" fn zeovalki_time(at: *mut u8, now: u64) -> u64
    ghost old: { Option Handle }
    requires* { sem 𝓛 (lies_at the_row full_share at old) }
    ensures* { ∃ₛ λ new. sem 𝓛 (lies_at the_row full_share at new)
        ∗ ⌜ OnOpen (TellsTime now) old result new ⌝ }
{
    let client = &mut *(at as *mut ForeignClient);
    client.tell_time(now)
}

/// The connection is lost.
#[unsafe(no_mangle)]
pub unsafe extern "C" fn zeovalki_end(at: *mut u8) -> u64
    ghost old: { Option Handle }
    requires* { sem 𝓛 (lies_at the_row full_share at old) }
    ensures* { ∃ₛ λ new. sem 𝓛 (lies_at the_row full_share at new)
        ∗ ⌜ OnOpen Ends old result new ⌝ }
{
    let client = &mut *(at as *mut ForeignClient);
    client.end()
}

/// What a client has is let go.
#[unsafe(no_mangle)]
pub unsafe extern "C" fn zeovalki_close(at: *mut u8) -> u64
    ghost old: { Option Handle }
    requires* { sem 𝓛 (lies_at the_row full_share at old) }
    ensures* { ∃ₛ λ new. sem 𝓛 (lies_at the_row full_share at new)
        ∗ ⌜ Closes old result new ⌝ }
{
    let client = &mut *(at as *mut ForeignClient);
    client.close()
}

/// 1 where the link has ended, else 0.
#[unsafe(no_mangle)]
pub unsafe extern "C" fn zeovalki_ended(at: *mut u8) -> u64
    ghost old: { Option Handle }
    requires* { sem 𝓛 (lies_at the_row full_share at old) }
    ensures* { ∃ₛ λ new. sem 𝓛 (lies_at the_row full_share at new)
        ∗ ⌜ TellsEnded old result new ⌝ }
{
    let client = &mut *(at as *mut ForeignClient);
    client.has_ended()
}

/// The number that the last call told.
#[unsafe(no_mangle)]
pub unsafe extern "C" fn zeovalki_number(at: *mut u8) -> u64
    ghost old: { Option Handle }
    requires* { sem 𝓛 (lies_at the_row full_share at old) }
    ensures* { ∃ₛ λ new. sem 𝓛 (lies_at the_row full_share at new)
        ∗ ⌜ TellsNumber old result new ⌝ }
{
    let client = &mut *(at as *mut ForeignClient);
    client.number()
}

/// The count of that name.
#[unsafe(no_mangle)]
pub unsafe extern "C" fn zeovalki_count(at: *mut u8, name: u64) -> u64
    ghost old: { Option Handle }
    requires* { sem 𝓛 (lies_at the_row full_share at old) }
    ensures* { ∃ₛ λ new. sem 𝓛 (lies_at the_row full_share at new)
        ∗ ⌜ TellsCount name old result new ⌝ }
{
    let client = &mut *(at as *mut ForeignClient);
    client.count(name)
}

/// The size of the last answer, which is copied where there is room for it.
#[unsafe(no_mangle)]
pub unsafe extern "C" fn zeovalki_answer(at: *mut u8, out: &mut [u8]) -> u64
    ghost old: { Option Handle }
    requires* { sem 𝓛 (lies_at the_row full_share at old) }
    ensures* { ∃ₛ λ new. sem 𝓛 (lies_at the_row full_share at new)
        ∗ ⌜ Copies old out.old result out.new new ⌝ }
{
    let client = &mut *(at as *mut ForeignClient);
    client.copy_answer(out)
}
