// `prove SHEET PROOF`: the proof goes to a file, the run's log to another where one is named, and rows, rounds and sum are told.
use crate::challenges::{are_counted, lend_challenges};
use crate::notes::say_notes;
use answers::{Proved, say};
use command_files::fault::Stop;
use command_files::inputs::read_sheet;
use command_files::logs::keep_log;
use command_files::{front, replace_or_tell};
use field::Field;
use prover::Done;
use refusal::Proving;
use std::rt::Files;

// How many bytes a proof of so many rounds has.
fn proof_length(rounds: usize) -> usize {
    if rounds > refusal::MAX_ROUNDS {
        return 0;
    }
    sizes::proof_bytes(rounds)
}

// What `prove` is asked: the names of the sheet, of the proof, of a text of challenges, and of a file for the log, and the modes. An empty name stands for counted
// challenges, and for no log. Where challenges are drawn none are read.
// Stays: an empty name and no Option, since `read_challenges` promises what it does with one.
#[derive(Clone, Copy)]
pub struct Asked<'a> {
    pub sheet: &'a [u8],
    pub proof: &'a [u8],
    pub challenges: &'a [u8],
    pub modes: Proving,
    pub log: &'a [u8],
}

impl<'a> Asked<'a> {
    // The rows of the sheet, over lent challenges. Where the proof gets no file nothing else is kept or told.
    fn run(self, rt: &impl Files, rows: &[u32], challenges: &[u32]) -> Result<(), Stop<'a>> {
        let mut proof = [0u8; 2832];
        let mut point = [0u32; 40];
        let mut log = [0u32; 968];
        let mut work = [0u32; 32768];
        let proved = prover::fractional_sumcheck(
            rows, self.modes, challenges, &mut proof, &mut point, &mut log, &mut work,
        );
        let Done { rounds, sum } = proved.answer?;
        let n = front(proof_length(rounds), &proof);
        replace_or_tell(rt, self.proof, &proof[..n])?;
        say(Proved {
            rows: rows.len() / 8,
            rounds,
            sum,
        });
        keep_log(rt, self.log, &log, proved.used.words);
        let counted = are_counted(self.challenges, self.modes.drawn);
        say_notes(sum.q.is_zero(), counted);
        Ok(())
    }

    fn read_and_run(self, rt: &impl Files) -> Result<(), Stop<'a>> {
        let mut rows = [0u32; 8192];
        let n = read_sheet(rt, self.sheet, &mut rows)?;
        let mut words = [0u32; 256];
        let k = lend_challenges(rt, self.challenges, self.modes.drawn, &mut words)?;
        self.run(rt, &rows[..n], &words[..k])
    }
}

// Proves, and says what stops it.
pub fn prove(rt: &impl Files, asked: Asked<'_>) {
    if let Err(stop) = asked.read_and_run(rt) {
        stop.tell();
    }
}
