// How a layout and a time are printed.
use printed::{Bits, Shards};
use rows::{Row, ShardSet};
use std::fmt;

// A width and rows: a line for each replica, with a mark at our own.
#[derive(Clone, Copy)]
pub struct Layout<'a> {
    pub own: usize,
    pub width: usize,
    pub rows: &'a [u64],
}

impl fmt::Display for Layout<'_> {
    fn fmt<W: fmt::Write>(&self, f: &mut fmt::Formatter<W>) -> fmt::Result {
        let width = self.width;
        let rows = self.rows;
        let own = self.own;
        writeln!(f, "  width {width}")?;
        for s in 0..rows.len() / 4 {
            let row = Row::read_row(rows, s);
            let mark = if s == own { "  (own)" } else { "" };
            writeln!(
                f,
                "  replica {s}  load {}  shards {}{mark}",
                row.count(),
                Shards(row)
            )?;
        }
        Ok(())
    }
}

// A time in milliseconds, to six places where it is below 10^9, and its bits.
#[derive(Clone, Copy)]
pub struct Milliseconds(pub f64);

impl fmt::Display for Milliseconds {
    fn fmt<W: fmt::Write>(&self, f: &mut fmt::Formatter<W>) -> fmt::Result {
        let time = self.0;
        if time < 0.0 {
            write!(f, "-{} ms (bits {})", Size(-time), Bits(time))
        } else {
            write!(f, "{} ms (bits {})", Size(time), Bits(time))
        }
    }
}

// The same of one that is not below 0, without its bits.
#[derive(Clone, Copy)]
struct Size(f64);

impl fmt::Display for Size {
    fn fmt<W: fmt::Write>(&self, f: &mut fmt::Formatter<W>) -> fmt::Result {
        let x = self.0;
        if x < 1000000000.0 {
            let millionths = std::num::saturating_f64_to_u64(x * 1000000.0 + 0.5);
            return write!(f, "{}.{:06}", millionths / 1000000, millionths % 1000000);
        }
        if x < 18446744073709551616.0 {
            return write!(f, "{}", std::num::saturating_f64_to_u64(x));
        }
        write!(f, "more than 18446744073709551615")
    }
}
