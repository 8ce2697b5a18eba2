//! The rows of a column in pieces, parted by pivots, and the rows that wait beside them.
//!
//! Here stand the rows with their fingerprints, the lists of rows that wait, the cracks at cuts and
//! within long pieces, the passes that merge many waiting rows at once, and the removal of a range.
//! `ripple_column` makes a column of them: its ripple moves, its merges and its answers.
#![tactic(auto)]

mod bulk_merge;
mod center_cracks;
mod cracked_rows;
mod cracked_with_shown_pivots;
mod cut_cracks;
mod deletion_bloom;
mod fingerprint_search;
mod fingerprinted_rows;
mod front_room_rows;
mod gap_moves;
mod gapped_rows;
mod indexed_deletions;
mod inner_cracks;
mod merge_at_gap;
mod merge_pass;
mod pending_bloom;
mod pending_lists;
mod range_gathered_rows;
mod range_removal;
mod row_hash;
mod row_position;
mod score_span;

pub use bulk_merge::merge_many;
pub use center_cracks::{approach_cuts, are_short, is_short_at};
pub use cracked_rows::Cracked;
pub use cracked_with_shown_pivots::Pieces;
pub use cracked_with_shown_pivots::shown_pivots::{renew_places, show_cuts};
pub use cut_cracks::{count_missing, crack_between, is_before};
pub use fingerprinted_rows::Rows;
pub use inner_cracks::{break_up, is_wide, narrow};
pub use pending_lists::{
    KEEPS_ROOM_FROM, MAX_PENDING, MAX_RESERVED, Pending, PendingList, RangeTails, SMALL_ROOM,
    is_within,
};
pub use range_removal::remove_between;
