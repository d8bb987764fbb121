// Answers and arguments as the pencil sheet prints them.
use binary::masks::bit_of;
use calls::{Refusal, TimesFailed};
use std::fmt;

// What a call answers, or that it is refused.
#[derive(Clone, Copy)]
pub struct Answer<T>(pub Result<T, Refusal>);

impl<T: fmt::Display> fmt::Display for Answer<T> {
    fn fmt<W: fmt::Write>(&self, f: &mut fmt::Formatter<W>) -> fmt::Result {
        match &self.0 {
            Ok(value) => write!(f, "{value}"),
            Err(refusal) => write!(f, "{refusal}"),
        }
    }
}

// Whether a test fails.
#[derive(Clone, Copy)]
pub struct Fails(pub bool);

impl fmt::Display for Fails {
    fn fmt<W: fmt::Write>(&self, f: &mut fmt::Formatter<W>) -> fmt::Result {
        f.write_str(if self.0 { "fails" } else { "passes" })
    }
}

// Whether an event or a period counts.
#[derive(Clone, Copy)]
pub struct Counts(pub bool);

impl fmt::Display for Counts {
    fn fmt<W: fmt::Write>(&self, f: &mut fmt::Formatter<W>) -> fmt::Result {
        f.write_str(if self.0 { "counts" } else { "does not count" })
    }
}

// Which of the three times fail.
#[derive(Clone, Copy)]
pub struct Times(pub TimesFailed);

impl fmt::Display for Times {
    fn fmt<W: fmt::Write>(&self, f: &mut fmt::Formatter<W>) -> fmt::Result {
        let start_up = Fails(self.0.start_up);
        let minimum_run = Fails(self.0.minimum_run);
        let minimum_down = Fails(self.0.minimum_down);
        write!(f, "{start_up} {minimum_run} {minimum_down}")
    }
}

// The set hours of a mask, each after a space.
#[derive(Clone, Copy)]
pub struct Hours(pub u32);

impl fmt::Display for Hours {
    fn fmt<W: fmt::Write>(&self, f: &mut fmt::Formatter<W>) -> fmt::Result {
        for h in 0..32 {
            if bit_of(self.0, h) {
                write!(f, " {h}")?;
            }
        }
        Ok(())
    }
}

// Signed numbers, from their words, each after a space.
#[derive(Clone, Copy)]
pub struct Numbers<'a>(pub &'a [u32]);

impl<'a> fmt::Display for Numbers<'a> {
    fn fmt<W: fmt::Write>(&self, f: &mut fmt::Formatter<W>) -> fmt::Result {
        for word in self.0 {
            write!(f, " {}", word.cast_signed())?;
        }
        Ok(())
    }
}

// A condition, named where it is met.
#[derive(Clone, Copy)]
pub struct Where<'a>(pub bool, pub &'a str);

impl<'a> fmt::Display for Where<'a> {
    fn fmt<W: fmt::Write>(&self, f: &mut fmt::Formatter<W>) -> fmt::Result {
        if self.0 {
            write!(f, ", {}", self.1)
        } else {
            Ok(())
        }
    }
}
