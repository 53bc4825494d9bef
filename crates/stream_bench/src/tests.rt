//! Tests of values, of both readers, and of queues of bytes.
mod byte_queues;
mod long_blobs;
mod long_replies;
mod long_words;
mod longest_value;
mod octets;
mod out_queues;
mod streams;
mod values;
