//! Values and requests of the RESP protocol, read from a stream of bytes, however it is cut.
#![tactic(auto)]

mod fault;
mod input;
mod leaf;
mod long_blob;
mod request;
mod request_reader;
mod stack;
mod tokens;
mod value;
mod value_reader;

pub use fault::{FaultPlace, StreamFault};
pub use request_reader::RequestReader;
pub use value_reader::ValueReader;
