use std::fmt;

/// An ascending list of numbers, printed as `0, 2 to 5`, or as `none` if it is empty.
#[derive(Drop)]
pub struct Listed(pub Vec<usize>);

impl fmt::Display for Listed {
    fn fmt<W: fmt::Write>(&self, f: &mut fmt::Formatter<W>) -> fmt::Result {
        let numbers = self.0.as_slice();
        if numbers.is_empty() {
            return f.write_str("none");
        }
        let runs = numbers.chunk_by(|last, next| last.checked_add(1) == Some(*next));
        for (i, run) in runs.enumerate() {
            if i > 0 {
                f.write_str(", ")?;
            }
            match run {
                [] => {}
                [only] => write!(f, "{only}")?,
                [first, last] => write!(f, "{first}, {last}")?,
                [first, .., last] => write!(f, "{first} to {last}")?,
            }
        }
        Ok(())
    }
}
