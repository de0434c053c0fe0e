// How the programs print the library's values.
#![tactic(auto)]

ghost use Rattle.std.specs.Prelude.{IsOk};

use rows::{Row, ShardId, ShardSet};
use std::fmt::Display;
use std::{fmt, io};

// Prints by P, and passes over what cannot be written: no print fails, and the next one is tried as well.
#[derive(Clone, Copy)]
pub struct BestEffort<'a, P>(pub &'a P);

impl<P: Print> Print for BestEffort<'_, P> {
    // Kept as it is: one function for the three is no plainer, since std's trait asks for each and each calls the same one of P.
    fn print<D: Display + Drop>(&self, value: D) -> io::Result<()>
        ensures { IsOk result }
    {
        let _ = self.0.print(value);
        Ok(())
    }

    fn println<D: Display + Drop>(&self, value: D) -> io::Result<()>
        ensures { IsOk result }
    {
        let _ = self.0.println(value);
        Ok(())
    }

    fn write_all(&self, bytes: &[u8]) -> io::Result<()>
        ensures { IsOk result }
    {
        let _ = self.0.write_all(bytes);
        Ok(())
    }
}

// The replicas of a mask, rising, with a comma between two of them; `none` if there is none.
#[derive(Clone, Copy)]
pub struct Members(pub u64);

impl fmt::Display for Members {
    fn fmt<W: fmt::Write>(&self, f: &mut fmt::Formatter<W>) -> fmt::Result {
        let row = self.0.row();
        write!(f, "{}", Shards(row))
    }
}

// The shards of a row, likewise.
#[derive(Clone, Copy)]
pub struct Shards(pub Row);

impl fmt::Display for Shards {
    fn fmt<W: fmt::Write>(&self, f: &mut fmt::Formatter<W>) -> fmt::Result {
        let row = self.0;
        let shards = (0..256).filter(|s| row.has(ShardId(*s)));
        if row == Row::none() {
            return write!(f, "none");
        }
        for (k, s) in shards.enumerate() {
            if k > 0 {
                write!(f, ",")?;
            }
            write!(f, "{s}")?;
        }
        Ok(())
    }
}

// The bits of a double; nothing if it is not finite.
#[derive(Clone, Copy)]
pub struct Bits(pub f64);

impl fmt::Display for Bits {
    fn fmt<W: fmt::Write>(&self, f: &mut fmt::Formatter<W>) -> fmt::Result {
        let x = self.0;
        if floats::is_finite(x) {
            let bits = f64::to_bits(x);
            return write!(f, "{bits:016x}");
        }
        Ok(())
    }
}
