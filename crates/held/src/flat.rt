// Sixteen surfaces as flat numbers, read and written whole.
ghost use Rattle.std.specs.Prelude.{◌≡◌, ◌*◌, ◌≤◌, ◌<◌, length, set};
ghost use Rattle.held.specs.JobFrom.{standing};
ghost use Rattle.held.specs.Standing.{Behind};

use optics::OpticalSurface;

// The surfaces that stand in flat numbers.
pub fn stand(flat: &[f64]) -> [OpticalSurface; 16]
    requires { 64 ≤ length flat.now }
    ensures { result ≡ standing flat.now }
{
    let none = variables::no_surface();
    let mut surfaces = [none; 16];
    for i in 0..16 {
        surfaces[i] = optics::surface_at(flat, i);
    }
    surfaces
}

// Flat numbers copied to the start of others: the same surfaces stand there.
pub fn copy(flat: &[f64], to: &mut [f64])
    requires fact_1 { 64 ≤ length to.old }
    requires fact_2 { 64 ≤ length flat.now }
    ensures fact_1 { standing to.new ≡ standing flat.now }
    ensures fact_2 { Behind to.old to.new }
{
    // Not `copy_from_slice`, which is compiled to memmove: an archive for C would need one more name from outside.
    for i in 0..64 {
        to[i] = flat[i];
    }
}

// One surface of those that stand in flat numbers replaced.
pub(crate) fn put_surface(flat: &mut [f64], i: usize, s: OpticalSurface)
    requires fact_1 { i < 16 }
    requires fact_2 { 64 ≤ length flat.old }
    ensures fact_1 { standing flat.new ≡ set (standing flat.old) i s }
    ensures fact_2 { Behind flat.old flat.new }
{
    flat[4 * i] = s.radius_mm;
    flat[4 * i + 1] = s.conic_constant;
    flat[4 * i + 2] = s.thickness_mm;
    flat[4 * i + 3] = s.semi_diameter_mm;
}
