// `replay PROOF ROUNDS LOG`: what `verify` tells, from the log of a run alone.
use crate::verdict::{say_bad, say_good};
use crate::verify::read_proof;
use answers::Accepted;
use command_files::fault::Fault;
use command_files::logs::read_log;
use refusal::Verifying;
use std::rt::Files;
use step::Frac;
use verifier_round::Claims;

fn replay_bytes(proof: &[u8], rounds: usize, modes: Verifying, log: &[u32]) {
    let mut point = [0u32; 40];
    let replayed = log_replay::replay(proof, rounds, modes, log, &mut point);
    match replayed.verdict {
        Ok(Claims { numer, denom }) => {
            let accepted = Accepted {
                stated: Frac { p: numer, q: denom },
                point: &point,
                rounds,
            };
            say_good(proof, accepted, replayed.used, false);
        }
        Err(refusal) => say_bad(proof, refusal, replayed.used),
    }
}

fn replay_files<'a>(
    rt: &impl Files,
    proof: &'a [u8],
    rounds: usize,
    modes: Verifying,
    log: &'a [u8],
) -> Result<(), Fault<'a>> {
    let mut bytes = [0u8; 65536];
    let length = read_proof(rt, proof, &mut bytes)?;
    let mut words = [0u32; 964];
    let n = read_log(rt, log, &mut words)?;
    replay_bytes(&bytes[..length], rounds, modes, &words[..n]);
    Ok(())
}

// The names of the proof and of the log.
pub fn replay(rt: &impl Files, proof: &[u8], rounds: usize, modes: Verifying, log: &[u8]) {
    if let Err(fault) = replay_files(rt, proof, rounds, modes, log) {
        fault.tell();
    }
}
