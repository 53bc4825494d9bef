//! What a program chooses of its client, as numbers and bytes, and what is wrong with it.
ghost use Rattle.std.specs.Prelude.{◌≡◌, IfOk};
ghost use Rattle.client_library.specs.Options.{are_clear, caching, fault_of, mode_of};
ghost use Rattle.client_library.specs.Options.{option_status, prefixes_in};

use super::handle::status;
use super::request::read_words;
use resp_value::{NoMemory, Proto, Words};
use shared_cache::{Caching, ClientMode, Shape};
use std::alloc::Global;

/// How the server is to track what a client reads (the page of CLIENT TRACKING), as a number.
pub mod tracking {
    /// Of each key that was read.
    pub const DEFAULT: u64 = 0;
    /// Of each read before which the client said CLIENT CACHING YES, as it does.
    pub const OPTIN: u64 = 1;
    /// Of each read before which the client did not say CLIENT CACHING NO.
    pub const OPTOUT: u64 = 2;
    /// Of each key with one of the client's prefixes, whether it was read or not.
    pub const BCAST: u64 = 3;
}

/// What a client is made of. C's `zeovalki_options` has the same fields.
#[repr(C)]
#[derive(Clone, Copy)]
pub struct ClientOptions {
    /// It holds at most so many keys: 1 to 1,000,000.
    pub capacity: u64,
    /// What was fetched longer ago is fetched anew; 0 for never.
    pub max_age: u64,
    /// One of `tracking`.
    pub tracking: u64,
    /// 1 where the server is not to tell of this client's own writes, else 0.
    pub noloop: u64,
    /// 0; for options to come.
    pub reserved: [u64; 4],
}

/// What is wrong with a client's options.
#[derive(Clone, Copy, Debug, PartialEq, Eq)]
pub enum OptionFault {
    /// The capacity is none that is served.
    Limit,
    /// There is no tracking of that number.
    Tracking,
    /// It is neither 0 nor 1.
    Noloop,
    /// It is not 0.
    Reserved,
    /// There are prefixes without BCAST, or bytes that begin with no whole words.
    Prefixes,
}

/// What the first of the faults is told by.
pub fn option_status(fault: OptionFault) -> u64
    ensures { result ≡ option_status fault }
{
    match fault {
        OptionFault::Limit => status::BAD_LIMIT,
        OptionFault::Tracking => status::BAD_TRACKING,
        OptionFault::Noloop => status::BAD_NOLOOP,
        OptionFault::Reserved => status::BAD_RESERVED,
        OptionFault::Prefixes => status::BAD_PREFIXES,
    }
}

fn is_reserved_clear(options: &ClientOptions) -> bool
    ensures { result ≡ are_clear options.now.reserved }
{
    options.reserved[0] == 0
        && options.reserved[1] == 0
        && options.reserved[2] == 0
        && options.reserved[3] == 0
}

/// The first fault of the numbers, and whether prefixes may go with them.
pub fn fault_of(options: &ClientOptions, has_prefixes: bool) -> Option<OptionFault>
    ensures { result ≡ fault_of options.now has_prefixes }
{
    if options.capacity == 0 || options.capacity > 1000000 {
        return Some(OptionFault::Limit);
    }
    if options.tracking > tracking::BCAST {
        return Some(OptionFault::Tracking);
    }
    if options.noloop > 1 {
        return Some(OptionFault::Noloop);
    }
    if !is_reserved_clear(options) {
        return Some(OptionFault::Reserved);
    }
    if has_prefixes && options.tracking != tracking::BCAST {
        return Some(OptionFault::Prefixes);
    }
    None
}

/// The prefixes that the bytes write, as the words of a command; none where there are no bytes.
/// Nothing where they begin with no whole words.
pub fn read_prefixes(alloc: Global, bytes: &[u8]) -> Result<Option<Words>, NoMemory>
    ensures { IfOk result (λ p. p ≡ prefixes_in bytes.now) }
{
    if bytes.len() == 0 {
        return Ok(Some(Words::new(alloc)));
    }
    read_words(alloc, bytes)
}

fn caching(number: u64, prefixes: Words) -> Caching
    ensures { result ≡ caching number prefixes }
{
    if number == tracking::DEFAULT {
        return Caching::Default;
    }
    if number == tracking::OPTIN {
        return Caching::OptIn;
    }
    if number == tracking::OPTOUT {
        return Caching::OptOut;
    }
    Caching::Bcast(prefixes)
}

/// The mode of a client with these options: over one link, on the third protocol.
pub fn mode_of(options: &ClientOptions, prefixes: Words) -> ClientMode
    ensures { result ≡ mode_of options.now prefixes }
{
    ClientMode {
        shape: Shape::Single,
        proto: Proto::Three,
        caching: caching(options.tracking, prefixes),
        noloop: options.noloop == 1,
    }
}
