// "unused entries .. are zero", and "releasing empties it": the zero of what a call answers, and the row of an empty place.
ghost use Rattle.std.specs.Prelude.{◌≡◌};
ghost use Rattle.runs.specs.Zeros.{zero_surfaces, zero_result};
ghost use Rattle.held.specs.Written.{held_from};
ghost use Rattle.bench.specs.Benches.{zero_row};

use held::{HeldBest, HeldHead, HeldJob, HeldRow, HeldRun};
use optics::OpticalSurface;
use runs::OptimizationResult;

pub fn zero_surfaces() -> [OpticalSurface; 16]
    ensures { result ≡ zero_surfaces }
{
    let zero = optics::zero_surface();
    let surfaces = [zero; 16];
    surfaces
}

pub fn zero_result() -> OptimizationResult
    ensures { result ≡ zero_result }
{
    let surfaces = zero_surfaces();
    OptimizationResult {
        surfaces,
        values: [0.0; 12],
        residuals: [0.0; 12],
        initial_merit: 0.0,
        final_merit: 0.0,
        iterations: 0,
        converged: 0,
    }
}

pub fn zero_row() -> HeldRow
    ensures { result ≡ held_from zero_row }
{
    HeldRow {
        head: HeldHead {
            words: [0; 13],
            scalars: [0.0; 7],
        },
        job: HeldJob {
            counts: [0; 73],
            numbers: [0.0; 195],
        },
        run: HeldRun {
            surfaces: [0.0; 64],
            jacobian: [0.0; 96],
            values: [0.0; 12],
            residuals: [0.0; 12],
            plus_residuals: [0.0; 12],
            params: [0.0; 8],
            candidate: [0.0; 8],
        },
        best: HeldBest {
            surfaces: [0.0; 64],
            values: [0.0; 12],
            residuals: [0.0; 12],
        },
    }
}
