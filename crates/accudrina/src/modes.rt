// The modes of an exported call: bits of one word.
ghost use Rattle.std.specs.Prelude.{◌≡◌, ◌≤◌};
ghost use Rattle.accudrina.specs.Modes as Modes;

use field::{Ext, Field};
use refusal::{Proving, Report, Verifying};

// A row over zero is refused by the prover, a root over zero by the verifier.
pub const LIVE: u32 = 1;

// A sum that is not zero is refused; where this is not set, the sum is observed.
pub const ASSERT_ZERO: u32 = 2;

// Challenges are drawn from the log, and those lent are not read.
pub const DRAWN: u32 = 4;

// A new proof has version 2, which binds its size.
pub const SIZED: u32 = 8;

// The verifier takes 0 rounds: the proof of a sheet with no rows.
pub const EMPTY: u32 = 16;

// Whether a bit is set: 1, 2, 4, ..
// Stays: the clause holds at every number from 1 on, where `modes & bit` would say so of powers of two alone.
#[tactic(auto, unfolding(crate::specs::Modes::has))]
pub fn has(modes: u32, bit: u32) -> bool
    requires { 1 ≤ bit }
    ensures { result ≡ Modes.has bit modes }
{
    modes / bit % 2 == 1
}

// The word with that bit not set.
#[tactic(auto, using(crate::proofs::ModeLaws::set_within), unfolding(crate::specs::Modes::without))]
pub fn without(modes: u32, bit: u32) -> u32
    requires { 1 ≤ bit }
    ensures { result ≡ Modes.without bit modes }
{
    if has(modes, bit) { modes - bit } else { modes }
}

// The bits of a word that the prover does not take.
pub fn untaken_by_prover(modes: u32) -> u32
    ensures { result ≡ Modes.untaken Modes.proving_bits modes }
{
    without(
        without(without(without(modes, LIVE), ASSERT_ZERO), DRAWN),
        SIZED,
    )
}

// The modes of proving that a word says.
pub fn proving(modes: u32) -> Proving
    ensures { result ≡ Modes.proving_of modes }
{
    Proving {
        live: has(modes, LIVE),
        assert_zero: has(modes, ASSERT_ZERO),
        drawn: has(modes, DRAWN),
        sized: has(modes, SIZED),
    }
}

// The bits of a word that the verifier does not take.
pub fn untaken_by_verifier(modes: u32) -> u32
    ensures { result ≡ Modes.untaken Modes.verifying_bits modes }
{
    without(without(without(modes, LIVE), DRAWN), EMPTY)
}

// The modes of verifying that a word says.
pub fn verifying(modes: u32) -> Verifying
    ensures { result ≡ Modes.verifying_of modes }
{
    Verifying {
        live: has(modes, LIVE),
        drawn: has(modes, DRAWN),
        empty: has(modes, EMPTY),
    }
}

// The number 28, with the bits that are not taken.
pub fn unknown_mode(bits: u32) -> Report
    ensures { result ≡ Modes.unknown_mode bits }
{
    Report {
        number: 28,
        ..refusal::done(bits as usize, Ext::ZERO, Ext::ZERO)
    }
}
