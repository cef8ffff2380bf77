ghost use Rattle.std.specs.Prelude.{◌≡◌, ℕ, List, ◌∷◌, ◌++◌, MatchOption, ◌≢◌};
ghost use Rattle.plan_text.specs.Kinds.{letter_of, label_of, heading_of};
ghost use Rattle.plan_text.specs.Text.{plan_heading, Lacks};

use crate::scan::literal;

/// The kind of a plan's costs, as its text names it.
#[derive(Clone, Copy, PartialEq, Eq, Debug)]
pub enum PlanKind {
    /// Delays; the letter D.
    Delay,
    /// Paid segments and delays; the letter P.
    Paid,
}

// The text behind its first line, if that is the heading of a plan.
pub(crate) fn behind_heading(text: &[u8]) -> Option<&[u8]>
    ensures { MatchOption result (Lacks text.now plan_heading)
        (λ rest. text.now ≡ plan_heading ++ rest.now) }
{
    literal(text, b"kind colours relays links\n")
}

impl PlanKind {
    /// The kind that a letter stands for; none for any letter but D and P.
    pub fn from_letter(letter: char) -> Option<PlanKind>
        ensures { MatchOption result ((k : PlanKind) → letter_of k ≢ letter)
            (λ k. letter_of k ≡ letter) }
    {
        // No `TryFrom<char>`: its error could say no more than `None`.
        match letter {
            'D' => Some(PlanKind::Delay),
            'P' => Some(PlanKind::Paid),
            _ => None,
        }
    }

    // The kind whose letter a text begins with, and the text behind the letter.
    fn split_letter(text: &[u8]) -> Option<(PlanKind, &[u8])>
        ensures { MatchOption result
            ((k : PlanKind) (rest : List ℕ) → text.now ≢ letter_of k ∷ rest)
            (λ x. text.now ≡ letter_of x.0 ∷ x.1.now) }
    {
        let (letter, rest) = text.split_first()?;
        let kind = PlanKind::from_letter(char::from(*letter))?;
        Some((kind, rest))
    }

    /// The kind whose letter begins the second line of a plan's text.
    /// None where the first line is not the heading of a plan, or no such letter follows.
    pub fn of_text(text: &[u8]) -> Option<PlanKind>
        ensures { MatchOption result
            ((k : PlanKind) (rest : List ℕ) → text.now ≢ plan_heading ++ letter_of k ∷ rest)
            (λ k. (rest : List ℕ) × (text.now ≡ plan_heading ++ letter_of k ∷ rest)) }
    {
        let second_line = behind_heading(text)?;
        let (kind, _) = PlanKind::split_letter(second_line)?;
        Some(kind)
    }

    // The text behind the letter of this kind and a space, if it begins with them.
    pub(crate) fn behind_letter(self, text: &[u8]) -> Option<&[u8]>
        ensures { MatchOption result (Lacks text.now (label_of self))
            (λ rest. text.now ≡ label_of self ++ rest.now) }
    {
        let (kind, rest) = PlanKind::split_letter(text)?;
        if kind == self {
            literal(rest, b" ")
        } else {
            None
        }
    }

    // The heading of the last block.
    pub(crate) fn heading(self) -> &'static [u8]
        ensures { result.now ≡ heading_of self }
    {
        match self {
            PlanKind::Delay => b"from to delay\n",
            PlanKind::Paid => b"from to paid delay\n",
        }
    }
}
