// The line of a verifier's refusal: a bad word of the proof by its element's name.
use answers::say;
use command_text::refusals::{Named, Refused, Replayed};
use refusal::{Refusal, Words};

// How many sub-rounds the entries from a place on have; 0 where there is no entry more.
fn read_counts(proof: &[u8], from: usize, counts: &mut [usize]) {
    let mut at = from;
    for count in counts {
        let Some(&subrounds) = proof.get(at) else {
            return;
        };
        *count = usize::from(subrounds);
        at += 1 + 48 * usize::from(subrounds);
    }
}

fn say_place(proof: &[u8], place: usize) {
    match stored::read_shape(proof) {
        Ok(outline) => {
            let mut counts = [0usize; 255];
            read_counts(proof, outline.polys, &mut counts);
            say(Named {
                place,
                layers: outline.layers,
                counts: &counts,
            });
        }
        Err(refusal) => say(Refused(refusal)),
    }
}

// What was refused of these bytes of a proof: a bad word of its own by its name, and its first byte says which word of a log a place is.
pub fn say_refused(proof: &[u8], refusal: Refusal) {
    match refusal {
        Refusal::BadWord {
            place,
            list: Words::Proof,
        } => say_place(proof, place),
        _ => say(Replayed {
            refusal,
            sized: stored::is_sized(proof),
        }),
    }
}
