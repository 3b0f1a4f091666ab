// Settings that a request leaves out are filled in with the defaults of dls.rs and global.rs, but for a damped job's damping.
ghost use Rattle.std.specs.Prelude.{◌≡◌};
ghost use Rattle.jobs.specs.Defaults.{damped_defaults, local_defaults, polish_settings, multi_start_defaults, annealing_defaults};
ghost use Rattle.jobs.specs.Filled.{dls_of, multi_start_of, annealing_of, method_of, filled};

use jobs::{
    DlsConfig, DlsRequest, Job, JobRequest, Method, MethodRequest, MultiStartConfig,
    MultiStartRequest, SimulatedAnnealingConfig, SimulatedAnnealingRequest,
};

// Of a damped job.
fn damped_defaults() -> DlsConfig
    ensures { result ≡ damped_defaults }
{
    DlsConfig {
        max_iterations: 50,
        initial_damping: 0.01,
        relative_merit_tolerance: 1e-6,
        gradient_tolerance: 1e-7,
        finite_difference_relative_step: 1e-5,
    }
}

// Of a multi-start's damped runs.
fn local_defaults() -> DlsConfig
    ensures { result ≡ local_defaults }
{
    DlsConfig {
        max_iterations: 20,
        initial_damping: 1.0,
        ..damped_defaults()
    }
}

// Of annealing's polish.
pub fn polish_settings() -> DlsConfig
    ensures { result ≡ polish_settings }
{
    DlsConfig {
        max_iterations: 25,
        initial_damping: 1.0,
        ..damped_defaults()
    }
}

fn multi_start_defaults() -> MultiStartConfig
    ensures { result ≡ multi_start_defaults }
{
    MultiStartConfig {
        local_dls_config: local_defaults(),
        num_trials: 10,
        seed: 42,
    }
}

fn annealing_defaults() -> SimulatedAnnealingConfig
    ensures { result ≡ annealing_defaults }
{
    SimulatedAnnealingConfig {
        initial_temperature: 100.0,
        cooling_rate: 0.90,
        steps_per_temperature: 15,
        max_cooling_cycles: 25,
        seed: 12345,
    }
}

fn dls_of(d: DlsConfig, request: DlsRequest) -> DlsConfig
    ensures { result ≡ dls_of d request }
{
    DlsConfig {
        max_iterations: request.max_iterations.unwrap_or(d.max_iterations),
        initial_damping: request.initial_damping.unwrap_or(d.initial_damping),
        relative_merit_tolerance: request
            .relative_merit_tolerance
            .unwrap_or(d.relative_merit_tolerance),
        gradient_tolerance: request.gradient_tolerance.unwrap_or(d.gradient_tolerance),
        finite_difference_relative_step: request
            .finite_difference_relative_step
            .unwrap_or(d.finite_difference_relative_step),
    }
}

fn multi_start_of(d: MultiStartConfig, request: MultiStartRequest) -> MultiStartConfig
    ensures { result ≡ multi_start_of d request }
{
    MultiStartConfig {
        local_dls_config: dls_of(d.local_dls_config, request.local_dls_config),
        num_trials: request.num_trials.unwrap_or(d.num_trials),
        seed: request.seed.unwrap_or(d.seed),
    }
}

fn annealing_of(
    d: SimulatedAnnealingConfig,
    request: SimulatedAnnealingRequest,
) -> SimulatedAnnealingConfig
    ensures { result ≡ annealing_of d request }
{
    SimulatedAnnealingConfig {
        initial_temperature: request.initial_temperature.unwrap_or(d.initial_temperature),
        cooling_rate: request.cooling_rate.unwrap_or(d.cooling_rate),
        steps_per_temperature: request
            .steps_per_temperature
            .unwrap_or(d.steps_per_temperature),
        max_cooling_cycles: request.max_cooling_cycles.unwrap_or(d.max_cooling_cycles),
        seed: request.seed.unwrap_or(d.seed),
    }
}

fn method_of(request: MethodRequest) -> Method
    ensures { result ≡ method_of request }
{
    match request {
        MethodRequest::Damped(asked) => Method::Damped(dls_of(damped_defaults(), asked)),
        MethodRequest::MultiStart(asked) => Method::MultiStart(multi_start_of(
            multi_start_defaults(),
            asked,
        )),
        MethodRequest::Annealing(asked) => Method::Annealing(annealing_of(
            annealing_defaults(),
            asked,
        )),
    }
}

// The request with its settings filled in, unused entries as they came.
pub(crate) fn filled_job(request: JobRequest) -> Job
    ensures { result ≡ filled request }
{
    Job {
        prescription: request.prescription,
        variables: request.variables,
        merit_function: request.merit_function,
        method: method_of(request.method),
    }
}
