// What may go wrong, and what is said of it.
use std::error::Error;
use std::fmt;

#[derive(Clone, Copy, Debug)]
pub enum Fault {
    Unread,
    Unwritten,
    // Never printed: the program ends without a word.
    Endless,
}

impl fmt::Display for Fault {
    fn fmt<W: fmt::Write>(&self, f: &mut fmt::Formatter<W>) -> fmt::Result {
        match self {
            Fault::Unread => write!(f, "layouts: the input cannot be read"),
            Fault::Unwritten => write!(f, "layouts: a line cannot be written"),
            Fault::Endless => write!(f, "layouts: the input does not end"),
        }
    }
}

impl Error for Fault {}
