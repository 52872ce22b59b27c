// Challenges that count: challenge k, from 1, is the element k.
ghost use Rattle.std.specs.Prelude.{◌≡◌, ◌/◌, length};
ghost use Rattle.answers.specs.Counting.{counted_up};

// The challenges 1, 2, 3, .. in a cleared buffer.
#[tactic(auto, using(crate::proofs::Counts::one_more), unfolding(crate::specs::Counting::counted_up))]
pub fn count_up(challenges: &mut [u32])
    ensures { challenges.new ≡ counted_up (length challenges.old / 4) challenges.old }
{
    // Stays: of the whole buffer the check knows nothing after `chunks_exact_mut` (tried).
    for k in 0..challenges.len() / 4 {
        challenges[4 * k] = (k % 2013265920) as u32 + 1;
    }
}
