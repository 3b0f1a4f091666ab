// What is said of the next turn. The big field stands first.
use optics::OpticalSurface;

// The surfaces whose merit comes next, and that merit.
#[derive(Clone, Copy)]
pub struct Pending {
    pub surfaces: [OpticalSurface; 16],
    pub merit: f64,
}
