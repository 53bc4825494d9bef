//! Tests of the marks of fetches, of a client, and of one as another language holds it.
mod client;
mod dialogues;
mod marks;
mod modes;
mod pair;
mod pair_cache;
mod pair_handshake;
