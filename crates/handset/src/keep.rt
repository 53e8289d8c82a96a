// What a call leaves in the saved bytes.
ghost use Rattle.std.specs.Prelude.{◌≡◌, length};
ghost use Rattle.gauge.specs.Answer.{Answer};
ghost use Rattle.handset.specs.Keep as Spec;
ghost use Rattle.refusals.specs.Refusal.{Answers, number_of};

use gauge::state::Gauge;
use refusals::Refusal;
use saved::save::put;

// The refusal of an outcome; else its gauge is put into the buffer, or 13.
#[tactic(auto, using(refusals::proofs::OrElseLaws::number_above), unfolding(crate::specs::Keep::kept_bytes, crate::specs::Keep::kept_number))]
pub(crate) fn keep(outcome: Result<Gauge, Refusal>, saved: &mut [u8]) -> Result<(), Refusal>
    ensures number { (answer : Answer) → Answers outcome answer.number answer.gauge → number_of result ≡ Spec.kept_number answer (length saved.old) }
    ensures bytes { (answer : Answer) → Answers outcome answer.number answer.gauge → saved.new ≡ Spec.kept_bytes answer saved.old }
{
    put(outcome?, saved)
}
