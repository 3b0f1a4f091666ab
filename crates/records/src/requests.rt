// A job as it is asked for, in numbers alone: what a caller in C has, who knows no enum.
ghost use Rattle.std.specs.Prelude.{◌≡◌, ◌<◌};
ghost use Rattle.records.specs.Requests.{is_given, given_seed, dls_request, multi_start_request, annealing_request};
ghost use Rattle.records.specs.Requests.{method_request, request_of, is_request};

use crate::types::RequestRecord;
use jobs::{
    DlsRequest, JobRequest, MethodRequest, MultiStartRequest, SettingsRecord,
    SimulatedAnnealingRequest,
};
use runs::methods;

// Whether the bit of this weight is set.
fn is_given(given: u64, weight: u64) -> bool
    requires { 0 < weight }
    ensures { result ≡ is_given given weight }
{
    given / weight % 2 == 1
}

fn dls_request(s: SettingsRecord, given: u64) -> DlsRequest
    ensures { result ≡ dls_request s given }
{
    DlsRequest {
        max_iterations: is_given(given, 1).then_some(s.max_iterations),
        initial_damping: is_given(given, 2).then_some(s.initial_damping),
        relative_merit_tolerance: is_given(given, 4).then_some(s.relative_merit_tolerance),
        gradient_tolerance: is_given(given, 8).then_some(s.gradient_tolerance),
        finite_difference_relative_step: is_given(given, 16).then_some(
            s.finite_difference_relative_step,
        ),
    }
}

// The seed, which both kinds with draws have.
fn given_seed(s: SettingsRecord, given: u64) -> Option<u64>
    ensures { result ≡ given_seed s given }
{
    is_given(given, 1024).then_some(s.seed)
}

fn multi_start_request(s: SettingsRecord, given: u64) -> MultiStartRequest
    ensures { result ≡ multi_start_request s given }
{
    MultiStartRequest {
        local_dls_config: dls_request(s, given),
        num_trials: is_given(given, 32).then_some(s.num_trials),
        seed: given_seed(s, given),
    }
}

fn annealing_request(s: SettingsRecord, given: u64) -> SimulatedAnnealingRequest
    ensures { result ≡ annealing_request s given }
{
    SimulatedAnnealingRequest {
        initial_temperature: is_given(given, 64).then_some(s.initial_temperature),
        cooling_rate: is_given(given, 128).then_some(s.cooling_rate),
        steps_per_temperature: is_given(given, 256).then_some(s.steps_per_temperature),
        max_cooling_cycles: is_given(given, 512).then_some(s.max_cooling_cycles),
        seed: given_seed(s, given),
    }
}

#[tactic(auto, unfolding(crate::specs::Requests::method_request))]
fn method_request(kind: u64, s: SettingsRecord, given: u64) -> MethodRequest
    ensures { result ≡ method_request kind s given }
{
    match kind {
        methods::DAMPED => MethodRequest::Damped(dls_request(s, given)),
        methods::MULTI_START => MethodRequest::MultiStart(multi_start_request(s, given)),
        _ => MethodRequest::Annealing(annealing_request(s, given)),
    }
}

pub fn request_of(asked: RequestRecord) -> JobRequest
    ensures { result ≡ request_of asked }
{
    let job = jobs::job_of(asked.kind, asked.job);
    JobRequest {
        prescription: job.prescription,
        variables: job.variables,
        merit_function: job.merit_function,
        method: method_request(asked.kind, asked.job.settings, asked.given),
    }
}

// Whether each number for a kind is one, and each bit of `given` names a setting.
#[tactic(auto, unfolding(crate::specs::Requests::is_request))]
pub fn is_request(asked: RequestRecord) -> bool
    ensures { result ≡ is_request asked }
{
    kinds::is_kind(asked.kind)
        && asked.given <= 2047
        && asked.job.variable_count <= 8
        && asked.job.operand_count <= 12
        && jobs::known_kinds(asked.job)
}
