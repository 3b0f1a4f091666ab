// The enabled variables of a held job, in order: the q-th value belongs to the q-th of them.
ghost use Rattle.std.specs.Prelude.{◌≡◌, ◌≤◌};
ghost use Rattle.variables.specs.Active.{num_active, active_at};
ghost use Rattle.held.specs.JobFrom.{variable_count_from, variables_from};

use crate::types::LentJob;
use variables::{Follower, VariableDef, VariableType};

impl LentJob<'_> {
    // How many are enabled.
    pub fn num_active(self) -> usize
        requires { variable_count_from self.counts.now ≤ 8 }
        ensures { result ≡ num_active (variables_from self.entry.counts.now self.entry.numbers.now) }
    {
        let count = self.variable_count();
        let mut p: usize = 0;
        for i in 0..count {
            let d = self.variable_at(i);
            if d.enabled {
                p += 1;
            }
        }
        p
    }

    // The enabled variable with q enabled ones before it.
    pub fn active_at(self, q: usize) -> VariableDef
        requires { variable_count_from self.counts.now ≤ 8 }
        ensures { result ≡ active_at (variables_from self.entry.counts.now self.entry.numbers.now) q }
    {
        let count = self.variable_count();
        let mut p: usize = 0;
        for i in 0..count {
            let d = self.variable_at(i);
            if d.enabled {
                if p == q {
                    return d;
                }
                p += 1;
            }
        }
        VariableDef {
            var_type: VariableType::Curvature(0),
            min_value: 0.0 / 0.0,
            max_value: 0.0 / 0.0,
            step_size: 0.0 / 0.0,
            enabled: false,
            follower: Follower::None,
        }
    }
}
