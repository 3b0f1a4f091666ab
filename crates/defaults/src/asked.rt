// What a request comes to.
ghost use Rattle.std.specs.Prelude.{◌≡◌};
ghost use Rattle.lists.specs.Refusals.{first_refusal};
ghost use Rattle.refusals.specs.Numbers.{answered};
ghost use Rattle.jobs.specs.Checks.{admission_refusals};
ghost use Rattle.jobs.specs.Kept.{job_from};

use crate::filled;
use jobs::{Job, JobRequest};
use refusals::Refusal;

// Why a request is refused on admission to an empty place.
pub fn refusal_of(request: JobRequest) -> Result<(), Refusal>
    ensures { answered result ≡ first_refusal (admission_refusals request) }
{
    jobs::job_refusal(filled::filled_job(request))
}

// The job that a request makes.
pub fn job_from(request: JobRequest) -> Job
    ensures { result ≡ job_from request }
{
    jobs::kept_job(filled::filled_job(request))
}
