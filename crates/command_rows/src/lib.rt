//! What the functions of the commands share: their replies, and the integers that values spell.
#![tactic(auto)]

mod integers;
mod replies;

pub use integers::{Addition, add, decimal};
pub use replies::{
    blob, blob_or_null, error, hash_not_integer, not_integer, ok, only, overflow, replied,
    too_long, wrong_type, wrote,
};
