// What a job file says.

use jet_plan::{Dag, Settings};

/// What a job file says: a job, not yet checked, and its settings.
#[derive(Drop)]
pub struct JobText {
    /// The job.
    pub dag: Dag,
    /// Its settings: those that the file leaves out have their defaults.
    pub settings: Settings,
}
