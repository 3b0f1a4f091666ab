// FNV-1a of 64 bits, over surfaces and merits.
ghost use Rattle.std.specs.Prelude.{◌≡◌, min};
ghost use Rattle.std.specs.List.{fold};
ghost use Rattle.answers.specs.Digest.{with_byte, with_bytes, with_float, with_surface, with_surfaces};

use optics::OpticalSurface;
use text::numbers;

// The offset basis.
pub const START: u64 = 0xcbf2_9ce4_8422_2325;

// The prime, 2^40 + 435.
const PRIME: u64 = 0x100_0000_01b3;

// One byte more.
fn with_byte(hash: u64, byte: u64) -> u64
    ensures { result ≡ with_byte hash byte }
{
    (hash ^ byte).wrapping_mul(PRIME)
}

// All these bytes more.
fn with_all(hash: u64, bytes: &[u8]) -> u64
    ensures { result ≡ fold with_byte hash bytes.now }
{
    bytes.iter().fold(hash, |h, b| with_byte(h, u64::from(*b)))
}

// The eight bytes of a number more, the lowest first.
fn with_word(hash: u64, x: u64) -> u64
    ensures { result ≡ with_bytes 8 hash x }
{
    with_all(hash, &x.to_le_bytes())
}

// A float more.
pub fn with_float(hash: u64, x: f64) -> u64
    ensures { result ≡ with_float hash x }
{
    with_word(hash, numbers::bits_of(x))
}

fn with_surface(hash: u64, s: OpticalSurface) -> u64
    ensures { result ≡ with_surface hash s }
{
    let h = with_float(hash, s.radius_mm);
    let h = with_float(h, s.conic_constant);
    let h = with_float(h, s.thickness_mm);
    with_float(h, s.semi_diameter_mm)
}

// The first `count` surfaces more.
pub fn with_surfaces(hash: u64, surfaces: [OpticalSurface; 16], count: usize) -> u64
    ensures { result ≡ with_surfaces hash surfaces (min count 16) }
{
    surfaces[..count.min(16)]
        .iter()
        .fold(hash, |h, s| with_surface(h, *s))
}
