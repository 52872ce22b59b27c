// Answers on standard output: numbers with single spaces between them, a line each.
use field::Ext;
use refusal::Report;

// The first number of a line.
pub fn first(n: u64) {
    io::print_decimal(1, n);
}

// A further number of the line.
pub fn next(n: u64) {
    io::write_all(1, b" ");
    io::print_decimal(1, n);
}

// The line's end.
pub fn end() {
    io::write_all(1, b"\n");
}

// The four words of an element.
pub fn ext(e: Ext) {
    next(u64::from(e.c0));
    next(u64::from(e.c1));
    next(u64::from(e.c2));
    next(u64::from(e.c3));
}

// The number of an answer and its eleven fields.
pub fn report(r: Report) {
    first(u64::from(r.number));
    next(r.first as u64);
    next(r.second as u64);
    next(r.third as u64);
    ext(r.left);
    ext(r.right);
}

// A list of words or bytes: its length, then its numbers.
pub fn list<T: Copy + Into<u64>>(s: &[T]) {
    next(s.len() as u64);
    for &n in s {
        next(n.into());
    }
}
