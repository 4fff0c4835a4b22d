//! Windows over events: frames, rows, what closes them, and what lets the rows out in order.
//!
//! It stands on the values of `jet_items`, the sizes of `jet_policy` and the trait of processors of `jet_boxes`.
//! A window of a job has two stages: `FrameP` joins the events of each key and slide to a frame, and `CombineP` joins
//! the frames of each window to a row; the laws of `stages` say that several instances of each give the rows of the
//! definition. `PlainWindow` does both in one step for one file: it keeps the events of open windows and computes the
//! rows of a window when a mark closes it; the laws of `laws` say how the rows of one call and the next come together.
//! `OrderedRows` holds rows until a mark lets them out, and `Slide` the frames of one key in a window that slides on.
#![tactic(auto)]

mod combine;
#[cfg(test)]
mod driven;
mod frame;
mod held;
mod held_frames;
mod laws;
mod open_frames;
mod ordered;
mod plain;
mod slide;
mod stages;
mod table;
mod times;

pub use combine::CombineP;
pub use frame::FrameP;
pub use laws::{closed_rows_stay, rows_end, rows_follow};
pub use ordered::OrderedRows;
pub use plain::PlainWindow;
pub use slide::Slide;
pub use stages::{
    few_frames, few_rows, frames_sum_kept, instances_give_rows, instances_sum_kept, one_row_each,
    ordered_are_rows, whole_windows,
};

#[cfg(test)]
mod frame_tests;
#[cfg(test)]
mod slide_tests;
#[cfg(test)]
mod start_tests;
#[cfg(test)]
mod tests;
#[cfg(test)]
mod tests_stages;
