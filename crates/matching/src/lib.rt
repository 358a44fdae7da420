//! How a state of a C program stands in the words of memory, and when the machine with unbroken power simulates a program.
#![tactic(auto)]

mod laws;

pub use laws::{
    a_mark_is_matched, a_store_keeps_all_covered, a_store_sets_one_cell,
    an_accessed_scalar_stands_alone, cells_match, cells_stay_covering, objects_lie_in_their_parts,
    objects_lie_whole, objects_share_no_byte, runs_keep_objects_made, settled_bytes_match,
    stamps_and_outputs_set_two_cells, words_are_aligned,
};
