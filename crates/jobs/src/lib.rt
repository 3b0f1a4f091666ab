// Jobs: as they are asked for, admitted and kept.
// Stands on `variables` and `meritcalls`; called by admission (`rows`), and by all that reads a row's job.
#![tactic(auto)]

mod checks;
mod entries;
mod jobrecords;
mod kept;
mod types;

pub use checks::{annealing_taken, dls_taken, job_refusal};
pub use entries::{OPERAND_KINDS, follower_of, operand_type, variable_type};
pub use jobrecords::{job_of, known_kinds};
pub use kept::kept_job;
pub use types::{
    DlsConfig, DlsRequest, Job, JobRecord, JobRequest, Method, MethodRequest, MultiStartConfig,
    MultiStartRequest, OperandRecord, SettingsRecord, SimulatedAnnealingConfig,
    SimulatedAnnealingRequest, VariableRecord,
};
