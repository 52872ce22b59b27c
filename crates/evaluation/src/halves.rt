// The values of both columns by halves of the rows, each half by the same rule.
ghost use Rattle.std.specs.Prelude.{◌≡◌, ◌+◌, ◌*◌, ◌^◌, ◌<◌, ◌≤◌, length};
ghost use Rattle.field.specs.ExtRing.{ExtRing};
ghost use Rattle.field.specs.Cells.{cell, Clean, cells};
ghost use Rattle.gkr.specs.Tree as Tree;
ghost use Rattle.step.specs.Values.{CanonFrac, IsFrac, dec_frac, zip_frac, line};
ghost use Rattle.prover_tree.specs.Nodes.{node};

use step::Frac;

// Between a and b at coordinate k of the point, both columns.
fn mix(x: &[u32], k: usize, a: Frac, b: Frac) -> Frac
    requires room { 4 * k + 3 < length x.now }
    requires clean { Clean x.now × CanonFrac a × CanonFrac b }
    ensures { IsFrac result (zip_frac (line (cell x.now k)) (dec_frac a) (dec_frac b)) }
{
    let z = field::load(x, k);
    Frac {
        p: step::line_at(a.p, b.p, z),
        q: step::line_at(a.q, b.q, z),
    }
}

// The point's last coordinate tells the upper half of the rows from the lower.
pub fn eval_rows_by_halves(rows: &[u32], x: &[u32], n: usize) -> Frac
    requires room { (length rows.now ≡ 8 * 2 ^ n) × (4 * n ≤ length x.now) }
    requires clean { Clean rows.now × Clean x.now }
    ensures { IsFrac result (Tree.value ExtRing (node rows.now) (cells x.now 0 n)) }
{
    if n == 0 {
        return prover_tree::load_node(rows, 0);
    }
    let (lower, upper) = rows.split_at(rows.len() / 2);
    let a = eval_rows_by_halves(lower, x, n - 1);
    let b = eval_rows_by_halves(upper, x, n - 1);
    mix(x, n - 1, a, b)
}
