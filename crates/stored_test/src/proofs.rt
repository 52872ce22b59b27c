// What is asked of a proof's bytes: shape, elements, the place of the first bad word; and proofs written from a log.
use crate::{number_of, text};
use field::Ext;
use stored::{LayerClaims, SubroundEvals};

fn element(e: Ext) {
    text::number(e.c0 as u64);
    text::number(e.c1 as u64);
    text::number(e.c2 as u64);
    text::number(e.c3 as u64);
}

fn claims(c: LayerClaims) {
    element(c.p_xi_0);
    element(c.q_xi_0);
    element(c.p_xi_1);
    element(c.q_xi_1);
}

fn subround(s: SubroundEvals) {
    element(s.s_1);
    element(s.s_2);
    element(s.s_3);
}

// The elements of the first layer, and the first sub-round of the first entry that is not empty.
fn elements(proof: &[u8], polys: usize) {
    if 21 <= proof.len() {
        element(wire::element_at(proof, 5));
    }
    if 86 <= proof.len() {
        claims(stored::read_claims(proof, 22));
    }
    if polys < proof.len() && 48 <= proof.len() - (polys + 1) {
        subround(stored::read_subround(proof, polys + 1));
    }
}

// The version of a proof, by whether it binds its size.
fn version(proof: &[u8]) {
    text::number(if stored::is_sized(proof) { 2 } else { 1 });
}

// All that is asked of one proof. Where no word is bad, their number stands for the place.
pub fn ask(proof: &[u8]) {
    let shape = stored::read_shape(proof);
    text::number(number_of(shape));
    if let Ok(outline) = shape {
        let words = stored::word_count(proof, outline);
        text::number(outline.layers as u64);
        text::number(outline.entries as u64);
        text::number(outline.polys as u64);
        text::number(stored::first_bad_in_proof(proof, outline).unwrap_or(words) as u64);
        text::number(words as u64);
        elements(proof, outline.polys);
        version(proof);
    }
}

// The shape reader's number for the first k bytes.
fn prefix(proof: &[u8], k: usize) {
    if k <= proof.len() {
        text::number(number_of(stored::read_shape(&proof[..k])));
    }
}

// The shape reader's number for each prefix.
pub fn prefixes(proof: &[u8]) {
    for k in 0..4096 {
        prefix(proof, k);
    }
}

fn no_rows(out: &mut [u8], sized: bool) {
    if 23 <= out.len() {
        text::number(stored_writer::put_no_rows(out, sized) as u64);
    }
}

fn one_round(out: &mut [u8], log: &[u32], cell: usize, sized: bool) {
    if 87 <= out.len() && 4 * (cell % 16) + 24 <= log.len() {
        text::number(stored_writer::put_proof(out, log, cell % 16, 1, sized) as u64);
    }
}

fn two_rounds(out: &mut [u8], log: &[u32], cell: usize, sized: bool) {
    if 200 <= out.len() && 4 * (cell % 16) + 64 <= log.len() {
        text::number(stored_writer::put_proof(out, log, cell % 16, 2, sized) as u64);
    }
}

fn three_rounds(out: &mut [u8], log: &[u32], cell: usize, sized: bool) {
    if 361 <= out.len() && 4 * (cell % 16) + 120 <= log.len() {
        text::number(stored_writer::put_proof(out, log, cell % 16, 3, sized) as u64);
    }
}

fn write_rounds(rounds: u32, out: &mut [u8], log: &[u32], cell: usize, sized: bool) {
    match rounds {
        1 => one_round(out, log, cell, sized),
        2 => two_rounds(out, log, cell, sized),
        3 => three_rounds(out, log, cell, sized),
        _ => no_rows(out, sized),
    }
}

// The proof that stands in a log from a cell on, into the first bytes of a buffer: rounds, 0 for no rows, the cell and the version come first.
fn write_into(given: &[u32], out: &mut [u8], room: usize) {
    if given.len() < 3 || out.len() < room {
        return;
    }
    write_rounds(
        given[0],
        &mut out[..room],
        &given[3..],
        text::place(given[1]),
        given[2] == 2,
    );
}

// A proof written into 400 bytes of sevens, and all of them printed.
pub fn write(given: &[u32], room: usize) {
    let mut out = [7u8; 400];
    write_into(given, &mut out, room);
    text::bytes(&out);
}
