// What stands in an evaluation and in a row of records before they are lent, and whether it still does.
use merit::MeritEvaluation;
use optics::ParaxialRay;

const RAY: ParaxialRay = ParaxialRay { y: 0.5, u: -0.25 };

pub(crate) fn marked_evaluation() -> MeritEvaluation {
    MeritEvaluation {
        values: [0.5; 12],
        residuals: [-0.25; 12],
        total_merit: 7.0,
    }
}

pub(crate) fn is_marked(e: MeritEvaluation) -> bool {
    e.total_merit == 7.0
        && e.values.iter().all(|x| *x == 0.5)
        && e.residuals.iter().all(|x| *x == -0.25)
}

pub(crate) fn marked_rays() -> [ParaxialRay; 16] {
    [RAY; 16]
}

// Whether records are as they were.
pub(crate) fn are_marked(rays: &[ParaxialRay]) -> bool {
    rays.iter().all(|ray| ray.y == RAY.y && ray.u == RAY.u)
}
