// The stored form of a proof, written from the log in which its messages stand.
#![tactic(auto)]

ghost use Rattle.std.specs.Prelude.{◌≡◌, [], ◌∷◌, ◌++◌, ◌+◌, ◌-◌, ◌*◌, ◌<◌, ◌≤◌, length, drop};
ghost use Rattle.field.specs.Element.{enc};
ghost use Rattle.field.specs.Cells.{cell};
ghost use Rattle.wire.specs.Bytes.{be4, bytes_of};
ghost use Rattle.wire.specs.Words.{ext_words};
ghost use Rattle.wire.specs.Written.{Wrote};
ghost use Rattle.stored.specs.Layout.{cubic_words, claim_words, cubics_words, claims_words, entries_bytes, version_of, layout};
ghost use Rattle.stored.specs.Lengths.{proof_size};
ghost use Rattle.stored_writer.specs.Messages.{stored_cubic, stored_claims, stored_polys, stored_layers, stored_entries, stored_proof, no_rows, words_of_log};

use field::{Base, Ext, Field};

fn put_element(out: &mut [u8], at: usize, e: Ext) -> usize
    requires { at + 16 ≤ length out.old }
    ensures { Wrote out.old out.new at result (bytes_of (ext_words e)) }
{
    wire::put_words(out, at, &[e.c0, e.c1, e.c2, e.c3])
}

// Cell i of the log, each word by its remainder.
fn put_cell(out: &mut [u8], at: usize, log: &[u32], i: usize) -> usize
    requires { (at + 16 ≤ length out.old) × (4 * i + 4 ≤ length log.now) }
    ensures { Wrote out.old out.new at result (bytes_of (ext_words (enc (cell log.now i)))) }
{
    let k = 4 * i;
    let e = Ext {
        c0: log[k] % Base::ORDER_U32,
        c1: log[k + 1] % Base::ORDER_U32,
        c2: log[k + 2] % Base::ORDER_U32,
        c3: log[k + 3] % Base::ORDER_U32,
    };
    put_element(out, at, e)
}

fn put_subround(out: &mut [u8], at: usize, log: &[u32], i: usize) -> usize
    requires { (at + 48 ≤ length out.old) × (4 * i + 12 ≤ length log.now) }
    ensures { Wrote out.old out.new at result (bytes_of (cubic_words (stored_cubic log.now i))) }
{
    let a = put_cell(out, at, log, i);
    let b = put_cell(out, a, log, i + 1);
    put_cell(out, b, log, i + 2)
}

fn put_claims(out: &mut [u8], at: usize, log: &[u32], i: usize) -> usize
    requires { (at + 64 ≤ length out.old) × (4 * i + 16 ≤ length log.now) }
    ensures { Wrote out.old out.new at result (bytes_of (claim_words (stored_claims log.now i))) }
{
    let a = put_cell(out, at, log, i);
    let b = put_cell(out, a, log, i + 1);
    let c = put_cell(out, b, log, i + 2);
    put_cell(out, c, log, i + 3)
}

// k sub-rounds, each three values and a challenge that is passed over.
fn put_subrounds(out: &mut [u8], at: usize, log: &[u32], i: usize, k: usize) -> usize
    requires { (at + 48 * k ≤ length out.old) × (4 * (i + 4 * k) ≤ length log.now) }
    ensures { Wrote out.old out.new at result (bytes_of (cubics_words (stored_polys log.now i k))) }
{
    let mut p = at;
    for j in 0..k {
        p = put_subround(out, p, log, i + 4 * j);
    }
    p
}

// A polynomial entry: the number of its sub-rounds, and the sub-rounds.
fn put_entry(out: &mut [u8], at: usize, log: &[u32], i: usize, r: usize) -> usize
    requires { (at + (48 * r + 1) ≤ length out.old) × (4 * (i + 4 * r) ≤ length log.now) × (r < 256) }
    ensures { Wrote out.old out.new at result (r ∷ bytes_of (cubics_words (stored_polys log.now i r))) }
{
    let p = wire::put_byte(out, at, r as u8);
    put_subrounds(out, p, log, i, r)
}

// The claims of the layers from 1 to n - 1, the first of which starts at cell i.
fn put_layers(out: &mut [u8], at: usize, log: &[u32], i: usize, n: usize) -> usize
    requires { (1 ≤ n) × (at + 64 * (n - 1) ≤ length out.old) × (4 * i + words_of_log n ≤ length log.now + words_of_log 1) }
    ensures { Wrote out.old out.new at result (bytes_of (claims_words (stored_layers log.now i 1 (n - 1)))) }
{
    let mut p = at;
    let mut c = i;
    for r in 1..n {
        p = put_claims(out, p, log, c + 1 + 4 * r);
        c += 6 + 4 * r;
    }
    p
}

// Their polynomial entries.
fn put_entries(out: &mut [u8], at: usize, log: &[u32], i: usize, n: usize) -> usize
    requires { (1 ≤ n) × (n < 256) × (at + length (entries_bytes (stored_entries log.now i 1 (n - 1))) ≤ length out.old) × (4 * i + words_of_log n ≤ length log.now + words_of_log 1) }
    ensures { Wrote out.old out.new at result (entries_bytes (stored_entries log.now i 1 (n - 1))) }
{
    let mut p = at;
    let mut c = i;
    for r in 1..n {
        p = put_entry(out, p, log, c + 1, r);
        c += 6 + 4 * r;
    }
    p
}

// The number of bytes after the length.
fn body_size(n: usize) -> u32
    requires { (1 ≤ n) × (n < 256) }
    ensures { result + 5 ≡ proof_size n }
{
    let k = n as u32;
    17 + 65 * k + 24 * (k * (k - 1))
}

// The version byte of a proof, by whether it binds its size.
fn version(sized: bool) -> u8
    ensures { result ≡ version_of sized }
{
    if sized { 2 } else { 1 }
}

// The version, and the length of what follows.
fn put_header(out: &mut [u8], sized: bool, size: u32) -> usize
    requires { 5 ≤ length out.old }
    ensures { Wrote out.old out.new 0 result (version_of sized ∷ be4 size) }
{
    let p = wire::put_byte(out, 0, version(sized));
    wire::put_word(out, p, size)
}

// q0, and all claims after their count.
fn put_front(out: &mut [u8], at: usize, log: &[u32], i: usize, n: usize) -> usize
    requires { (1 ≤ n) × (n < 256) × (at + (64 * n + 17) ≤ length out.old) × (4 * i + words_of_log n ≤ length log.now) }
    ensures { Wrote out.old out.new at result
        (((bytes_of (ext_words (enc (cell log.now i))) ++ (n ∷ [])) ++ bytes_of (claim_words (stored_claims log.now (i + 1))))
        ++ bytes_of (claims_words (stored_layers log.now (i + 6) 1 (n - 1)))) }
{
    let b = put_cell(out, at, log, i);
    let c = wire::put_byte(out, b, n as u8);
    let d = put_claims(out, c, log, i + 1);
    put_layers(out, d, log, i + 6, n)
}

// The polynomial entries after their count.
fn put_back(out: &mut [u8], at: usize, log: &[u32], i: usize, n: usize) -> usize
    requires { (1 ≤ n) × (n < 256) × (at + (length (entries_bytes (stored_entries log.now (i + 6) 1 (n - 1))) + 1) ≤ length out.old) × (4 * i + words_of_log n ≤ length log.now) }
    ensures { Wrote out.old out.new at result ((n - 1) ∷ entries_bytes (stored_entries log.now (i + 6) 1 (n - 1))) }
{
    let f = wire::put_byte(out, at, (n - 1) as u8);
    put_entries(out, f, log, i + 6, n)
}

// The stored proof of a run over n rounds, whose log starts at cell i, to the front of the bytes.
pub fn put_proof(out: &mut [u8], log: &[u32], i: usize, n: usize, sized: bool) -> usize
    requires { (1 ≤ n) × (n < 256) × (proof_size n ≤ length out.old) × (4 * i + words_of_log n ≤ length log.now) }
    ensures { (result ≡ proof_size n) × (out.new ≡ layout sized (stored_proof log.now i (n - 1)) ++ drop (proof_size n) out.old) }
{
    let a = put_header(out, sized, body_size(n));
    let b = put_front(out, a, log, i, n);
    put_back(out, b, log, i, n)
}

// The stored proof of no rows.
pub fn put_no_rows(out: &mut [u8], sized: bool) -> usize
    requires { 23 ≤ length out.old }
    ensures { (result ≡ 23) × (out.new ≡ layout sized no_rows ++ drop 23 out.old) }
{
    let a = put_header(out, sized, 18);
    let b = put_element(out, a, Ext::ONE);
    let c = wire::put_byte(out, b, 0);
    wire::put_byte(out, c, 0)
}
