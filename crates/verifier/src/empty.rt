// No rounds, where that is valid.
ghost use Rattle.std.specs.Prelude.{◌≡◌};
ghost use Rattle.refusal.specs.Tests.{first_of};
ghost use Rattle.verifier.specs.Verified.{empty_tests, emptied};
ghost use Rattle.verifier.specs.Gates.{ReadyEmpty};

use field::{Ext, Field};
use refusal::Refusal;
use stored::Outline;
use verifier_round::{Claims, Verdict};

// No layer, no polynomial entry, and q0 is 1: then the claims are 0 and 1. Nothing is observed.
pub fn verify_empty(proof: &[u8], outline: Outline) -> Verdict
    requires { ReadyEmpty proof.now outline }
    ensures { result ≡ emptied (first_of (empty_tests proof.now)) }
{
    let Outline {
        layers,
        entries,
        ..
    } = outline;
    if layers != 0 {
        return Err(Refusal::IncorrectLayerCount {
            expected: 0,
            actual: layers,
        });
    }
    if entries != 0 {
        return Err(Refusal::IncorrectSumcheckPolyCount {
            expected: 0,
            actual: entries,
        });
    }
    let q0 = wire::element_at(proof, 5);
    if !q0.equals(Ext::ONE) {
        return Err(Refusal::InvalidZeroRoundValue { actual: q0 });
    }
    Ok(Claims {
        numer: Ext::ZERO,
        denom: Ext::ONE,
    })
}
