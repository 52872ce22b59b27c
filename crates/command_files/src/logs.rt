// A log in a file: its words one after the other, four bytes each, the highest first.
ghost use Rattle.std.specs.Prelude.{◌≡◌, ◌≤◌, ◌*◌, ◌++◌, min, length, drop, IfOk};
ghost use Rattle.std.specs.Result.{result_ok};
ghost use Rattle.io.specs.Counts.{IsPrefixLen};
ghost use Rattle.wire.specs.Bytes.{words_from};
ghost use Rattle.command_files.specs.Given.{FromFile};
ghost use Rattle.command_files.specs.Logs.{log_of, log_given};

use crate::fault::{Fault, Stop};
use crate::{Input, front, read, replace_or_tell};
use std::rt::Files;

// The first n words of the bytes go to the front of the words.
fn copy_log(bytes: &[u8], words: &mut [u32], n: usize)
    requires { (4 * n ≤ length bytes.now) × (n ≤ length words.old) }
    ensures { words.new ≡ words_from n bytes.now ++ drop n words.old }
{
    for i in 0..n {
        words[i] = wire::word_at(bytes, 4 * i);
    }
}

fn too_long(path: &[u8]) -> Fault<'_> {
    Fault::TooLong {
        path,
        limit: " has more than 3856 bytes, and no verifier logs more than 964 words\n",
    }
}

#[tactic(auto, unfolding(crate::specs::Logs::log_of))]
fn log_of<'a>(path: &'a [u8], bytes: &[u8], words: &mut [u32]) -> Result<usize, Fault<'a>>
    ensures prefix_len { IfOk result (λ n. IsPrefixLen n words.new) }
    ensures given { record { given = result_ok result; words = words.new } ≡ log_of bytes.now words.old }
{
    let n = bytes.len() / 4;
    if bytes.len() % 4 != 0 {
        return Err(Fault::SplitWord {
            path,
            bytes: bytes.len(),
        });
    }
    if words.len() < n {
        return Err(too_long(path));
    }
    copy_log(bytes, words, n);
    Ok(n)
}

// The words of the log in a file, into the front of the words. More bytes than those of any verifier's log are not read.
pub fn read_log<'a>(rt: &impl Files, path: &'a [u8], words: &mut [u32]) -> Result<usize, Fault<'a>>
    ensures prefix_len { IfOk result (λ n. IsPrefixLen n words.new) }
    ensures given { FromFile (log_given words.old) (record { given = result_ok result; words = words.new }) }
{
    let mut bytes = [0u8; 3856];
    match read(rt, path, &mut bytes)? {
        Input::Whole(n) => log_of(path, &bytes[..n], words),
        Input::Front(_) => Err(too_long(path)),
    }
}

// So many words of a log, as many as there are, and no more than any run writes.
fn log_front(words: usize, log: &[u32]) -> usize
    ensures { (result ≡ min words (min (length log.now) 968)) × IsPrefixLen result log.now × (result ≤ 968) }
{
    words.min(log.len().min(968))
}

fn write_log<'a>(rt: &impl Files, path: &'a [u8], log: &[u32]) -> Result<(), Stop<'a>>
    requires { length log.now ≤ 968 }
{
    let mut bytes = [0u8; 3872];
    let end = wire::put_words(&mut bytes, 0, log);
    let n = front(end, &bytes);
    replace_or_tell(rt, path, &bytes[..n])
}

// The first words of a log go to a file; an empty name stands for none. What fails is told.
pub fn keep_log(rt: &impl Files, path: &[u8], log: &[u32], words: usize) {
    if path.is_empty() {
        return;
    }
    let n = log_front(words, log);
    if let Err(stop) = write_log(rt, path, &log[..n]) {
        stop.tell();
    }
}
