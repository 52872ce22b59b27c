// The sixteen words of an answer.
ghost use Rattle.std.specs.Prelude.{◌≡◌};
ghost use Rattle.accudrina.specs.Answer.{field_word, tells};

use refusal::Report;
use transcript::Used;

fn field_word(x: usize) -> u32
    ensures { result ≡ field_word x }
{
    (x % 4294967296) as u32
}

// Every word of the answer is written; the number comes back.
#[tactic(auto, unfolding(crate::specs::Answer::answer_words))]
pub fn tell(report: Report, used: Used, answer: &mut [u32; 16]) -> u32
    ensures { record { number = result; words = answer.new } ≡ tells report used }
{
    *answer = [
        report.number,
        field_word(report.first),
        field_word(report.second),
        field_word(report.third),
        report.left.c0,
        report.left.c1,
        report.left.c2,
        report.left.c3,
        report.right.c0,
        report.right.c1,
        report.right.c2,
        report.right.c3,
        field_word(used.challenges),
        field_word(used.words),
        0,
        0,
    ];
    report.number
}
