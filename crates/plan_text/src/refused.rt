ghost use Rattle.std.specs.Prelude.{Some};
ghost use Rattle.plan_text.specs.Refusers.{word_of};
ghost use Rattle.plan_text.specs.Reading.{Says};

use plan::{Draft, Refusal};
use std::fmt;

/// Who refused a plan's text.
#[derive(Clone, Copy, PartialEq, Eq, Debug)]
pub enum Refuser {
    /// The text itself: it is not in form, or beyond a limit.
    Text,
    /// The draft, of what a line enters.
    Draft,
    /// The closing of the whole plan.
    Closing,
}

impl fmt::Display for Refuser {
    ghost output = { λ w. Some (word_of w) };

    fn fmt<W: fmt::Write>(&self, f: &mut fmt::Formatter<W>) -> fmt::Result {
        match self {
            Refuser::Text => f.write_str("text"),
            Refuser::Draft => f.write_str("draft"),
            Refuser::Closing => f.write_str("closing"),
        }
    }
}

/// A refused reading.
#[derive(Drop)]
pub struct Refused {
    /// Why it was refused.
    pub refusal: Refusal,
    /// The line of the text, from 1; 0 from the closing. No `Option`: it is told and printed as 0.
    pub line: u32,
    /// Who refused.
    pub by: Refuser,
    /// The draft with the lines before, once it is open.
    pub draft: Option<Draft>,
}

impl Refused {
    // A refusal at a line, or at line 0 by the closing, with the draft in hand.
    pub(crate) fn new(refusal: Refusal, line: u32, by: Refuser, draft: Option<Draft>) -> Refused
        ensures { Says result refusal line by draft }
    {
        Refused {
            refusal,
            line,
            by,
            draft,
        }
    }
}
