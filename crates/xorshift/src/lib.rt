// Marsaglia's xorshift generator of 2003, 13/7/17: the step on plain numbers, the generator lent by `&mut`, and a draw for those who keep its state.
// Stands on `lists`; called by `draws`, `rows`, `jump` and `leaves`.
#![tactic(auto)]

ghost use Rattle.std.specs.Prelude.{◌≡◌};
ghost use Rattle.xorshift.specs.Xorshift.{step_of, seeded, step_times};
ghost use Rattle.xorshift.specs.Draws.{advanced, unit_of, uniform_of, draw_of};

#[derive(Clone, Copy)]
pub struct Rng64 {
    pub state: u64,
}

// The new state, which is also the word drawn. The remainders, by 2^51 and 2^47, drop the bits that a shift to the left would push past the end.
pub fn step(x: u64) -> u64
    ensures { result ≡ step_of x }
{
    let a = x ^ ((x % 0x8_0000_0000_0000) << 13);
    let b = a ^ (a >> 7);
    b ^ ((b % 0x8000_0000_0000) << 17)
}

// The unit draw of a word, from 0 to below 1: its top 53 bits times 2^-53.
fn unit_of(x: u64) -> f64
    ensures { result ≡ unit_of x }
{
    let top = x >> 11;
    (top as f64) * 1.1102230246251565e-16
}

// A unit draw, taken between a and b.
pub fn uniform(draw: f64, a: f64, b: f64) -> f64
    ensures { result ≡ uniform_of draw a b }
{
    a + (b - a) * draw
}

impl Rng64 {
    pub fn new(seed: u64) -> Rng64
        ensures { result.state ≡ seeded seed }
    {
        if seed == 0 {
            Rng64 {
                state: 0x853c49e6748fea9b,
            }
        } else {
            Rng64 { state: seed }
        }
    }

    pub(crate) fn next_u64(&mut self) -> u64
        ensures { (result ≡ step_of self.old.state) × (self.new ≡ advanced self.old) }
    {
        let x = step(self.state);
        self.state = x;
        x
    }

    pub(crate) fn next_f64(&mut self) -> f64
        ensures { (result ≡ unit_of (step_of self.old.state)) × (self.new ≡ advanced self.old) }
    {
        let x = self.next_u64();
        unit_of(x)
    }
}

// A unit draw, and the generator's state after it.
#[derive(Clone, Copy)]
pub struct Draw {
    pub state: u64,
    pub unit: f64,
}

// One draw of a generator whose state is kept as a number: it is lent for the draw.
pub fn drawn(state: u64) -> Draw
    ensures { result ≡ draw_of state }
{
    let mut rng = Rng64 { state };
    let unit = rng.next_f64();
    Draw {
        state: rng.state,
        unit,
    }
}

// The state after a number of draws.
pub fn state_after(seed: u64, draws: u64) -> u64
    ensures { result ≡ step_times draws (seeded seed) }
{
    let mut x = Rng64::new(seed).state;
    for _ in 0..draws {
        x = drawn(x).state;
    }
    x
}
