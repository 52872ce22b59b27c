// How `verify` and `replay` tell what they end with: the verdict, the two claims and the point, or the refusal; and what was used up.
use crate::notes::say_notes;
use crate::refused::say_refused;
use answers::{Accepted, print, say};
use refusal::Refusal;
use std::fmt;
use transcript::Used;

// The line of what was used up, with its end.
#[derive(Clone, Copy)]
struct UsedUp(Used);

impl fmt::Display for UsedUp {
    fn fmt<W: fmt::Write>(&self, f: &mut fmt::Formatter<W>) -> fmt::Result {
        let Used { challenges, words } = self.0;
        writeln!(f, "used {challenges} challenges, {words} log words")
    }
}

// An accepted proof; whether its challenges were counted is told after it.
pub fn say_good(proof: &[u8], accepted: Accepted<'_>, used: Used, counted: bool) {
    say(accepted);
    print(UsedUp(used));
    say_notes(stored::is_over_zero(proof), counted);
}

// What was refused, and what was used up until then.
pub fn say_bad(proof: &[u8], refusal: Refusal, used: Used) {
    say_refused(proof, refusal);
    print(UsedUp(used));
}
