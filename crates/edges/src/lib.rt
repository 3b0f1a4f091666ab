// The edge of a lens element, out of the sags of its two surfaces (request 3).
// Stands on `optics`; called by `meritcalls` for the edge operand.
#![tactic(auto)]

mod edge;

pub use edge::edge_of;
