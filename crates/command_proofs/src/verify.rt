// `verify PROOF ROUNDS`: the verdict, the two claims and the point are told, and whether the claims are a sheet's; the run's log goes to a file where one is named.
ghost use Rattle.std.specs.Prelude.{IfOk};
ghost use Rattle.io.specs.Counts.{IsPrefixLen};

use crate::challenges::{are_counted, lend_challenges};
use crate::compare::compare_or_tell;
use crate::verdict::{say_bad, say_good};
use answers::Accepted;
use command_files::fault::Fault;
use command_files::logs::keep_log;
use command_files::{Input, read};
use refusal::Verifying;
use std::rt::Files;
use step::Frac;
use verifier_round::Claims;

// What `verify` is asked: the names of the proof, of a text of challenges, of a sheet, and of a file for the log, the rounds and the modes. An empty name stands for counted
// challenges, for no sheet, and for no log. Where challenges are drawn none are read.
#[derive(Clone, Copy)]
pub struct Asked<'a> {
    pub proof: &'a [u8],
    pub rounds: usize,
    pub modes: Verifying,
    pub challenges: &'a [u8],
    pub sheet: &'a [u8],
    pub log: &'a [u8],
}

impl<'a> Asked<'a> {
    // The bytes of the proof, over lent challenges.
    fn run(self, rt: &impl Files, proof: &[u8], challenges: &[u32]) {
        let Asked { rounds, modes, .. } = self;
        let mut point = [0u32; 40];
        let mut log = [0u32; 964];
        let verified = verifier::verify_gkr(proof, rounds, modes, challenges, &mut point, &mut log);
        keep_log(rt, self.log, &log, verified.used.words);
        match verified.verdict {
            Ok(Claims { numer, denom }) => {
                let accepted = Accepted {
                    stated: Frac { p: numer, q: denom },
                    point: &point,
                    rounds,
                };
                let counted = are_counted(self.challenges, modes.drawn);
                say_good(proof, accepted, verified.used, counted);
                compare_or_tell(rt, self.sheet, accepted);
            }
            Err(refusal) => say_bad(proof, refusal, verified.used),
        }
    }

    fn read_and_run(self, rt: &impl Files) -> Result<(), Fault<'a>> {
        let mut bytes = [0u8; 65536];
        let length = read_proof(rt, self.proof, &mut bytes)?;
        let mut words = [0u32; 256];
        let n = lend_challenges(rt, self.challenges, self.modes.drawn, &mut words)?;
        self.run(rt, &bytes[..length], &words[..n]);
        Ok(())
    }
}

// The bytes of a proof, in the front of the buffer. A file that is longer than any proof of ten rounds by far is not read to its end, and has no number.
pub fn read_proof<'a>(rt: &impl Files, path: &'a [u8], bytes: &mut [u8]) -> Result<usize, Fault<'a>>
    ensures { IfOk result (λ n. IsPrefixLen n bytes.new) }
{
    match read(rt, path, bytes)? {
        Input::Whole(n) => Ok(n),
        Input::Front(_) => Err(Fault::TooLong {
            path,
            limit: " has more than 65536 bytes, and a proof of 10 rounds has 2832\n",
        }),
    }
}

// Verifies, and says what stops it.
pub fn verify(rt: &impl Files, asked: Asked<'_>) {
    if let Err(fault) = asked.read_and_run(rt) {
        fault.tell();
    }
}
