// The archive that C and Rust link: the functions of `accudrina` under their own names, with the same contracts.
#![tactic(auto)]

ghost use Rattle.std.specs.Prelude.{◌≡◌};
ghost use Rattle.prover.specs.Proved.{lent};
ghost use Rattle.verifier.specs.Verified.{lent as again};
ghost use Rattle.accudrina.specs.Calls.{reading, proving, verifying, replaying, evaluating};
ghost use Rattle.accudrina.specs.Rooms as Rooms;

// The bytes of a stored proof of so many rounds.
#[unsafe(no_mangle)]
pub extern "C" fn accudrina_proof_bytes(rounds: usize) -> usize
    ensures { result ≡ Rooms.bytes_of_proof rounds }
{
    accudrina::rooms::accudrina_proof_bytes(rounds)
}

// The words of the point: four a round.
#[unsafe(no_mangle)]
pub extern "C" fn accudrina_point_words(rounds: usize) -> usize
    ensures { result ≡ Rooms.words_of_point rounds }
{
    accudrina::rooms::accudrina_point_words(rounds)
}

// The words of the log in these modes: four more where the sum is observed, since zero is not asserted, and four more where the size is; other bits are not looked at.
#[unsafe(no_mangle)]
pub extern "C" fn accudrina_log_words(rounds: usize, modes: u32) -> usize
    ensures { result ≡ Rooms.words_of_log rounds modes }
{
    accudrina::rooms::accudrina_log_words(rounds, modes)
}

// The words of the prover's workspace.
#[unsafe(no_mangle)]
pub extern "C" fn accudrina_workspace_words(rounds: usize) -> usize
    ensures { result ≡ Rooms.words_of_workspace rounds }
{
    accudrina::rooms::accudrina_workspace_words(rounds)
}

// The words of the challenges that a run takes.
#[unsafe(no_mangle)]
pub extern "C" fn accudrina_challenge_words(rounds: usize) -> usize
    ensures { result ≡ Rooms.challenge_words rounds }
{
    accudrina::rooms::accudrina_challenge_words(rounds)
}

// The rounds of so many rows: 0 for no rows and for one, one more than are taken for a number of rows that is refused.
#[unsafe(no_mangle)]
pub extern "C" fn accudrina_rounds(rows: usize) -> usize
    ensures { result ≡ Rooms.rounds rows }
{
    accudrina::rooms::accudrina_rounds(rows)
}

// Stored bytes to row words: the number 0 and the row count, or the refusal; refused, the rows are as before.
#[unsafe(no_mangle)]
pub extern "C" fn accudrina_read_sheet(
    sheet: &[u8],
    rows: &mut [u32],
    answer: &mut [u32; 16],
) -> u32
    ensures { record { told = record { number = result; words = answer.new }; buffers = rows.new }
        ≡ reading sheet.now rows.old }
{
    accudrina::accudrina_read_sheet(sheet, rows, answer)
}

// A sheet's proof, point and log: the number 0, the rounds and the sum, or the refusal with its fields; first of all 28, the bits of the modes that are not taken.
#[unsafe(no_mangle)]
pub extern "C" fn accudrina_prove(
    rows: &[u32],
    modes: u32,
    challenges: &[u32],
    proof: &mut [u8],
    point: &mut [u32],
    log: &mut [u32],
    work: &mut [u32],
    answer: &mut [u32; 16],
) -> u32
    ensures { record { told = record { number = result; words = answer.new }; buffers = lent proof.new point.new log.new work.new }
        ≡ proving rows.now modes challenges.now
        (lent proof.old point.old log.old work.old) }
{
    accudrina::accudrina_prove(rows, modes, challenges, proof, point, log, work, answer)
}

// What the verifier says of a proof: the number 0 and both claims at the point written, or the refusal with its fields; first of all 28, the bits of the modes that are not taken.
#[unsafe(no_mangle)]
pub extern "C" fn accudrina_verify(
    proof: &[u8],
    rounds: usize,
    modes: u32,
    challenges: &[u32],
    point: &mut [u32],
    log: &mut [u32],
    answer: &mut [u32; 16],
) -> u32
    ensures { record { told = record { number = result; words = answer.new }; buffers = again point.new log.new }
        ≡ verifying proof.now rounds modes challenges.now (again point.old log.old) }
{
    accudrina::accudrina_verify(proof, rounds, modes, challenges, point, log, answer)
}

// The verdict of a proof from a stored log alone, which is only read: as the verifier's on the log's challenges, or the place where the log is not the one that it leaves;
// first of all 28, the bits of the modes that are not taken.
#[unsafe(no_mangle)]
pub extern "C" fn accudrina_replay(
    proof: &[u8],
    rounds: usize,
    modes: u32,
    log: &[u32],
    point: &mut [u32],
    answer: &mut [u32; 16],
) -> u32
    ensures { record { told = record { number = result; words = answer.new }; buffers = point.new }
        ≡ replaying proof.now rounds modes log.now point.old }
{
    accudrina::accudrina_replay(proof, rounds, modes, log, point, answer)
}

// The values of both columns of a sheet at a point: the number 0, the rounds and both values, or the refusal; it only reads.
#[unsafe(no_mangle)]
pub extern "C" fn accudrina_evaluate(rows: &[u32], point: &[u32], answer: &mut [u32; 16]) -> u32
    ensures { record { number = result; words = answer.new } ≡ evaluating rows.now point.now }
{
    accudrina::accudrina_evaluate(rows, point, answer)
}
