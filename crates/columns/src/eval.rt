// The value of a table of 2^n entries at a point of n coordinates: in place, as the Rust does it, and by halves, only reading.
ghost use Rattle.std.specs.Prelude.{◌≡◌, ◌+◌, ◌*◌, ◌^◌, ◌<◌, ◌≤◌, length};
ghost use Rattle.field.specs.ExtRing.{ExtRing};
ghost use Rattle.field.specs.Element.{dec, Canon, Is};
ghost use Rattle.field.specs.Cells.{cell, Clean, Stored, cells};
ghost use Rattle.field.specs.Column.{flat};
ghost use Rattle.step.specs.Values.{line};
ghost use Rattle.multilinear.specs.Table as Table;
ghost use Rattle.columns.specs.Tables as Tables;
ghost use Rattle.columns.specs.Passes.{Merged};

use field::Ext;

// Entry i and entry half + i are brought together at z.
fn merge_entry(t: &mut [u32], half: usize, i: usize, z: Ext)
    requires room { (4 * (half + i) + 3 < length t.old) × (i < half) }
    requires clean { Clean t.old × Canon z }
    ensures { Stored t.old t.new i (line (dec z) (cell t.old i) (cell t.old (half + i))) }
{
    let v = step::line_at(field::load(t, i), field::load(t, half + i), z);
    field::store(t, i, v);
}

// Both halves are brought together at z, in the low half.
fn merge(t: &mut [u32], half: usize, z: Ext)
    requires room { 8 * half ≤ length t.old }
    requires clean { Clean t.old × Canon z }
    ensures { Merged t.old t.new half half (dec z) }
{
    for i in 0..half {
        merge_entry(t, half, i, z);
    }
}

// The point's last coordinate binds the top bit first; the value ends up in entry 0.
pub fn eval_in_place(t: &mut [u32], x: &[u32], n: usize) -> Ext
    requires room { (length t.old ≡ 4 * 2 ^ n) × (4 * n ≤ length x.now) }
    requires clean { Clean t.old × Clean x.now }
    ensures value { Is result (Table.value ExtRing (cell t.old) (cells x.now 0 n)) }
    ensures table { t.new ≡ flat (Tables.overwrite ExtRing n (cell x.now) (cell t.old)) (2 ^ n) }
{
    let mut half = t.len() / 4;
    for k in (0..n).rev() {
        half /= 2;
        merge(t, half, field::load(x, k));
    }
    field::load(t, 0)
}

// Each half by the same rule, with one variable less.
pub fn eval_by_halves(t: &[u32], x: &[u32], n: usize) -> Ext
    requires room { (length t.now ≡ 4 * 2 ^ n) × (4 * n ≤ length x.now) }
    requires clean { Clean t.now × Clean x.now }
    ensures { Is result (Table.value ExtRing (cell t.now) (cells x.now 0 n)) }
{
    if n == 0 {
        return field::load(t, 0);
    }
    let (low, high) = t.split_at(t.len() / 2);
    let a = eval_by_halves(low, x, n - 1);
    let b = eval_by_halves(high, x, n - 1);
    step::line_at(a, b, field::load(x, n - 1))
}
