// Where the challenges of a run come from: a text that is named, a count, or the run itself, which draws them.
ghost use Rattle.std.specs.Prelude.{◌≡◌, false, if◌then◌else◌, ◌==◌, length, IfOk};
ghost use Rattle.std.specs.Result.{result_ok};
ghost use Rattle.io.specs.Counts.{IsPrefixLen};
ghost use Rattle.command_files.specs.Given.{some, challenges_given, FromFile};

use command_files::fault::Fault;
use command_files::inputs::read_challenges;
use std::rt::Files;

// Whether they are counted: none are named, and none drawn.
pub fn are_counted(path: &[u8], drawn: bool) -> bool
    ensures { result ≡ if drawn then false else length path.now == 0 }
{
    !drawn && path.is_empty()
}

// The words that a run is lent: where it draws none, and no file is read.
pub fn lend_challenges<'a>(
    rt: &impl Files,
    path: &'a [u8],
    drawn: bool,
    words: &mut [u32],
) -> Result<usize, Fault<'a>>
    ensures prefix_len { IfOk result (λ n. IsPrefixLen n words.new) }
    ensures given { FromFile (λ file. if drawn then some 0 words.old else challenges_given (length path.now) words.old file)
        (record { given = result_ok result; words = words.new }) }
{
    if drawn {
        return Ok(0);
    }
    read_challenges(rt, path, words)
}
