//! What a job reads, and what flows from vertex to vertex.
//!
//! The definitions stand in `specs/`: the files of a job with their numbers (`DataFiles`), the rows of a side file
//! (`SideFiles`), the unit of the watermarks (`Grain`), the events that leave each vertex (`Flow`), what the files of a job
//! hold and which of its events came late (`Contents`), where what flows was read (`Places`), and the windows with the events that enter them (`Inflows`). They
//! know no rings, members or routes. `grain` computes the unit; the laws say that the flow is the only thing that keeps the
//! rule of each vertex of a valid job, that its keys stay short, and that its events keep their places.
#![tactic(auto)]

mod laws;
mod slides;

pub use laws::{
    events_keep_their_places, events_stand_in_their_files, files_hold_short_keys,
    flow_keeps_the_rules, keys_stay_short, only_the_flow_keeps_the_rules,
    source_files_have_their_numbers, the_file_enters_the_window,
    without_idle_notes_the_own_mark_counts,
};
pub use slides::grain;

#[cfg(test)]
mod tests;
