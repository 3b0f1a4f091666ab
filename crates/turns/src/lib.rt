// A run of any kind, over the row's lent parts: the surfaces whose merit comes next, and from that merit to just before the next.
// Stands on `dls`, `multistart` and `annealing`; called by `rowturns`.
#![tactic(auto)]

mod advance;
mod pending;
mod turn;

pub use pending::pending_surfaces;
pub use turn::turned;
