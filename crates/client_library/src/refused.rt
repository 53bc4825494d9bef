//! Which commands are refused by their first word.
ghost use Rattle.std.specs.Prelude.{◌≡◌, ◌∷◌, [], codes};
ghost use Rattle.std.specs.Str.{bytes_eq, str_to_ascii_lowercase};
ghost use Rattle.client_library.specs.Refused.{client_names, connection_names, is_among};
ghost use Rattle.client_library.specs.Refused.{is_second_among, refuses, replication_names};
ghost use Rattle.client_library.specs.Refused.{script_names, server_names, subscription_names};
ghost use Rattle.client_library.specs.Refused.{transaction_names};

use resp_value::{Octets, Words};

fn is_named(word: &Octets, name: &[u8]) -> bool
    ensures { result
        ≡ bytes_eq (str_to_ascii_lowercase word.now) (str_to_ascii_lowercase name.now) }
{
    word.as_slice().eq_ignore_ascii_case(name)
}

fn is_of_connection(name: &Octets) -> bool
    ensures { result ≡ is_among connection_names name.now }
{
    is_named(name, b"auth")
        || is_named(name, b"hello")
        || is_named(name, b"reset")
        || is_named(name, b"quit")
        || is_named(name, b"select")
        || is_named(name, b"swapdb")
}

fn is_of_transaction(name: &Octets) -> bool
    ensures { result ≡ is_among transaction_names name.now }
{
    is_named(name, b"multi")
        || is_named(name, b"exec")
        || is_named(name, b"discard")
        || is_named(name, b"watch")
        || is_named(name, b"unwatch")
}

fn is_of_subscription(name: &Octets) -> bool
    ensures { result ≡ is_among subscription_names name.now }
{
    is_named(name, b"subscribe")
        || is_named(name, b"unsubscribe")
        || is_named(name, b"psubscribe")
        || is_named(name, b"punsubscribe")
        || is_named(name, b"ssubscribe")
        || is_named(name, b"sunsubscribe")
        || is_named(name, b"monitor")
}

fn is_of_replication(name: &Octets) -> bool
    ensures { result ≡ is_among replication_names name.now }
{
    is_named(name, b"sync")
        || is_named(name, b"psync")
        || is_named(name, b"replconf")
        || is_named(name, b"asking")
        || is_named(name, b"readonly")
        || is_named(name, b"readwrite")
}

fn is_of_server(name: &Octets) -> bool
    ensures { result ≡ is_among server_names name.now }
{
    is_named(name, b"debug") || is_named(name, b"shutdown") || is_named(name, b"failover")
}

fn is_harmless_client(words: &[Octets]) -> bool
    ensures { result ≡ is_second_among client_names words.now }
{
    match words {
        [] => false,
        [word, ..] => {
            is_named(word, b"getname")
                || is_named(word, b"id")
                || is_named(word, b"info")
                || is_named(word, b"list")
                || is_named(word, b"setinfo")
                || is_named(word, b"setname")
                || is_named(word, b"trackinginfo")
        }
    }
}

fn is_harmless_script(words: &[Octets]) -> bool
    ensures { result ≡ is_second_among script_names words.now }
{
    match words {
        [] => false,
        [word, ..] => {
            is_named(word, b"exists")
                || is_named(word, b"flush")
                || is_named(word, b"kill")
                || is_named(word, b"load")
        }
    }
}

/// Whether a client refuses the command of these words: one that would change how its connection is
/// served, by its first word, whatever stands behind.
#[tactic(auto, unfolding(crate::specs::Refused::refuses))]
pub fn refuses(words: &Words) -> bool
    ensures { result ≡ refuses words.now }
{
    match words.as_slice() {
        [] => false,
        [name, words @ ..] => {
            is_of_connection(name)
                || is_of_transaction(name)
                || is_of_subscription(name)
                || is_of_replication(name)
                || is_of_server(name)
                || (is_named(name, b"client") && !is_harmless_client(words))
                || (is_named(name, b"script") && !is_harmless_script(words))
        }
    }
}
