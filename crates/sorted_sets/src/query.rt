//! Commands that change nothing: their answers, and the listings that some of them ask for.

pub mod answering_by_form;
pub mod least_pairs;
pub mod listing;
pub mod missing_key_reply;
pub mod ping;
pub mod window;
pub mod zset_answers;
