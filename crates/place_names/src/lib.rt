//! The names of places: each is set once, by whoever names the place first, and read without a lock.
//!
//! A key's hash says where its walk over the places begins, and the key's place is the first on the walk that bears the
//! key. Here are the names, the steps of a walk, and what one worker knows: the names that it has met, the keys whose
//! places it has met, and the hashes of the names. The walks themselves, by which a key finds its place or is given one,
//! stand in `set_table`.
#![tactic(auto)]

mod copied_knowledge;
mod hashed_key;
mod key_cache;
mod knowledge_of_names;
mod known_place_names;
mod met_name_hashes;
mod names_set_once;

pub use hashed_key::{Name, hash};
pub use key_cache::mixed_hash;
pub use knowledge_of_names::Knowledge;
pub use names_set_once::Names;
