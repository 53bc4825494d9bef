//! Tests of commands read from words, of the keyspace, of each data command's row, of all of them
//! by one call, and of deadlines.
mod data_commands;
mod deadlines;
mod hashes;
mod keys;
mod keys_held;
mod queries;
mod rows;
mod strings;
mod words;
