// A polynomial's value by Horner's rule, from the highest coefficient down.
ghost use Rattle.std.specs.Prelude.{ℕ, ◌<◌, length};
ghost use Rattle.field.specs.Ext as E;
ghost use Rattle.field.specs.ExtRing.{ExtRing};
ghost use Rattle.field.specs.Element.{dec, Canon, Is};
ghost use Rattle.field.specs.Cells.{Clean};
ghost use Rattle.columns.specs.Tables as Tables;
ghost use Rattle.columns.specs.Passes.{base_cell, Reads};

use field::{Ext, Field};

// The polynomial at x of n coefficients, each read by its index.
pub fn horner<F: Fn(usize) -> Ext>(coefficient: F, n: usize, x: Ext) -> Ext
    requires callable { (i : ℕ) → i < n → F.pre coefficient i }
    requires canon { Canon x × ((i : ℕ) (e : _) → i < n → F.post coefficient i e → Canon e) }
    ensures { (c : ℕ → E.Ext) → Reads (F.post coefficient) n c → Is result (Tables.polynomial ExtRing n c (dec x)) }
{
    let mut acc = Ext::ZERO;
    for i in (0..n).rev() {
        acc = step::interpolate::horner_step(acc, x, coefficient(i));
    }
    acc
}

// The base element of word i, as an element.
pub fn base_at(coeffs: &[u32], i: usize) -> Ext
    requires room { i < length coeffs.now }
    requires clean { Clean coeffs.now }
    ensures { Is result (base_cell coeffs.now i) }
{
    Ext {
        c0: coeffs[i],
        ..Ext::ZERO
    }
}
