// Lines for a person to read, written to standard output by the programs that the gate runs. Floats are printed by their bits. No contract can say what
// is written; what is said here is that every list is read within its length. What cannot be written is left out, and the program goes on.
#![tactic(auto)]

use std::fmt;

// A float by its bits, or by a word for not-a-number, which has no one pattern.
#[derive(Clone, Copy)]
pub struct Bits(pub f32);

impl fmt::Display for Bits {
    fn fmt<W: fmt::Write>(&self, f: &mut fmt::Formatter<W>) -> fmt::Result {
        if self.0.is_nan() {
            return f.write_str("nan");
        }
        let bits = marks::bits(self.0);
        write!(f, "{bits:08x}")
    }
}

// The first `count` numbers of a list, a blank before each.
#[derive(Clone, Copy)]
struct Row<'a, T> {
    list: &'a [T],
    count: usize,
}

impl<T: fmt::Display> fmt::Display for Row<'_, T> {
    fn fmt<W: fmt::Write>(&self, f: &mut fmt::Formatter<W>) -> fmt::Result {
        for x in self.list.iter().take(self.count) {
            write!(f, " {x}")?;
        }
        Ok(())
    }
}

// Floats, a blank before each.
#[derive(Clone, Copy)]
struct Floats<'a>(&'a [f32]);

impl fmt::Display for Floats<'_> {
    fn fmt<W: fmt::Write>(&self, f: &mut fmt::Formatter<W>) -> fmt::Result {
        for x in self.0 {
            write!(f, " {}", Bits(*x))?;
        }
        Ok(())
    }
}

// A line of the first `count` numbers of a list.
pub fn numbers<T: fmt::Display>(rt: &impl Print, label: &str, list: &[T], count: usize) {
    let _ = println!(rt; "{label}{}", Row { list, count });
}

// A line of the v-th three floats of a list. The label need not be text.
pub fn point(rt: &impl Print, label: &[u8], list: &[f32], v: usize) {
    let three = list.chunks(3).nth(v).unwrap_or(&[]);
    let _ = rt.write_all(label);
    let _ = println!(rt; "{}", Floats(three));
}
