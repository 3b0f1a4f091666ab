// A whole job line of the three kinds of run.
ghost use Rattle.text.specs.Reader.{Reads};
ghost use Rattle.joblines.specs.Request.{request_from};

use crate::line::JobLine;
use crate::settings;
use jobs::JobRequest;
use text::reader::{Reader, Wrong};

// The request of a job line of this kind, with the settings read from where the rest left off.
pub fn read_request(reader: &mut Reader, kind: u64, job: JobLine) -> Result<JobRequest, Wrong>
    ensures { Reads (request_from kind job) reader.old result reader.new }
{
    let JobLine {
        prescription,
        variables,
        merit_function,
    } = job;
    let method = settings::read_method(reader, kind)?;
    Ok(JobRequest {
        prescription,
        variables,
        merit_function,
        method,
    })
}
