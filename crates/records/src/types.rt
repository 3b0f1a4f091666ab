// A job as a caller in C asks for it.
use jobs::JobRecord;

// In numbers alone. `kind` is 1 to 3, and bit i of `given` says that setting i of the job's settings is given: the others are left out.
#[repr(C)]
#[derive(Clone, Copy)]
pub struct RequestRecord {
    pub job: JobRecord,
    pub kind: u64,
    pub given: u64,
}
