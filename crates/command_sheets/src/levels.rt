// The fraction tree, level by level: the rows, the sums of two rows, of four, and so on to the sum of all.
ghost use Rattle.std.specs.Prelude.{◌*◌, ◌≤◌, length};
ghost use Rattle.field.specs.Cells.{Clean};

use answers::{print, say};
use command_text::Fraction;
use field::Ext;
use std::fmt;
use step::Frac;

// The nodes of a level, a space before each.
#[derive(Clone, Copy)]
struct Level<'a>(&'a [[u32; 8]]);

impl fmt::Display for Level<'_> {
    fn fmt<W: fmt::Write>(&self, f: &mut fmt::Formatter<W>) -> fmt::Result {
        for &[p0, p1, p2, p3, q0, q1, q2, q3] in self.0 {
            let p = Ext {
                c0: p0,
                c1: p1,
                c2: p2,
                c3: p3,
            };
            let q = Ext {
                c0: q0,
                c1: q1,
                c2: q2,
                c3: q3,
            };
            write!(f, " {}", Fraction(Frac { p, q }))?;
        }
        Ok(())
    }
}

// The tree over so many rows, by its nodes: node 1 is the root, and the level of so many nodes begins at the node of that number.
fn say_levels(nodes: &[[u32; 8]], size: usize)
    requires { (1 ≤ size) × (2 * size ≤ length nodes.now) }
{
    say(format_args!("rows:{}", Level(&nodes[size..2 * size])));
    let mut first = size / 2;
    while 1 < first {
        let level = Level(&nodes[first..2 * first]);
        say(format_args!("sums of {} rows:{level}", size / first));
        first /= 2;
    }
    say(format_args!("sum:{}", Level(&nodes[1..2])));
}

// The tree of the rows, a power of two of them or none.
pub fn show_rows(rows: &[u32])
    requires room { length rows.now ≤ 8192 }
    requires clean { Clean rows.now }
{
    let count = rows.len() / 8;
    if count == 0 {
        return print("rows:\nsum: 0/1\n");
    }
    let mut work = [0u32; 16384];
    prover_run::sum_rows(rows, count, &mut work);
    let (nodes, _) = work.as_chunks();
    say_levels(nodes, count);
}
