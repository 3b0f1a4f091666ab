// What refuses a dealing before its first turn: 9, then 12.
ghost use Rattle.std.specs.Prelude.{◌≡◌};
ghost use Rattle.refusals.specs.Numbers.{answered};
ghost use Rattle.bench.specs.Calls.{any_damaged, deal_number};

use bench::Bench;
use refusals::Refusal;

// Whether a taken row is damaged.
fn has_damaged(bench: &Bench) -> bool
    ensures { result ≡ any_damaged bench.now }
{
    (0..4).any(|place| rows::is_damaged(&bench.rows[place]))
}

#[tactic(auto, unfolding(bench::specs::Calls::deal_number))]
pub(crate) fn deal_refusal(bench: &Bench, room: usize) -> Result<(), Refusal>
    ensures { answered result ≡ deal_number bench.now room }
{
    Refusal::ShortScratch.unless(room >= normal::SCRATCH)?;
    Refusal::Damaged.unless(bench.next_place < 4 && !has_damaged(bench))
}
