//! The definitions of the database: what a line does to the tables, to the log and to the files, and what opening
//! finds. Their laws are the contracts of functions that do nothing.
#![tactic(auto)]

mod damage;
mod definition;
mod entry_rules;
mod laws;
mod line_rules;

pub use damage::Damage;
pub use definition::{CellEdit, IndexDef, TableDef};
pub use entry_rules::{
    changes_place, counts_at_commit, ends_transaction, first_entry_with, forces_earlier,
    in_use_after, is_change_of, leaves_in_hand, next_number,
};
pub use laws::{
    at_most_one_holds, bookmarks_stay, catalog_is_below_its_bound, catalog_stays_good,
    checkpoints_open, commits_alone, copies_and_lines_are_apart, entries_lie_end_to_end,
    entry_is_appended, first_change_found_what_is_committed, first_images_open,
    forced_entries_are_found, forced_never_falls, free_place_is_among_used, good_rows_are_storable,
    grown_is_steady, held_once_in_runs, held_once_stays, lines_are_works, lines_have_answers,
    log_files_are_kept, mark_ends_all, next_is_above_all, next_is_fresh, opening_finds_committed,
    own_changes_are_seen, places_and_first_entries, readers_go_in_order, refused_lines_leave_all,
    reversed_may_abort, rows_stay_good, seen_rows_may_change, selects_are_isolated,
    states_stay_sound, steps_are_determined, steps_go_on, trails_go_on, users_rows_stay_good,
    works_are_numbered, works_are_plain, works_fit,
};
pub use line_rules::takes_memory;
