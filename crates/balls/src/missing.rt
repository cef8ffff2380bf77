ghost use Rattle.std.specs.Prelude.{◌≡◌, ℕ, ◌-◌, ◌↔◌, true, false, IsTrue, ◌≢◌, ◌∷◌, ◌++◌, replicate, count_by};
ghost use Rattle.plan.specs.Reach.{IsMarked};
ghost use Rattle.plan.specs.Sound.{IsColour};

// The colours that have not been met yet: a mark for each, and how many marks are left.
// To ask every mark whenever a relay is met, in place of the count, would be no plainer.
#[derive(Drop)]
pub(crate) struct Missing {
    marks: [bool; 256],
    count: usize,
    ghost counted: { count ≡ count_by (λ mark. mark) marks },
}

// A mark for each of the colours 1 to `palette`.
fn marks_to(palette: u8) -> [bool; 256]
    ensures { result ≡ false ∷ (replicate palette true ++ replicate (255 - palette) false) }
{
    let mut marks = [false; 256];
    marks[1..=usize::from(palette)].fill(true);
    marks
}

impl Missing {
    // All the colours 1 to `palette`.
    pub(crate) fn all(palette: u8) -> Missing
        ensures { (c : ℕ) → IsMarked result.marks c ↔ IsColour palette c }
    {
        Missing {
            marks: marks_to(palette),
            count: usize::from(palette),
        }
    }

    pub(crate) fn is_empty(&self) -> bool
        ensures { IsTrue result ↔ ((c : ℕ) → IsMarked self.now.marks c → ⊥) }
    {
        self.count == 0
    }

    // Takes a colour out.
    pub(crate) fn remove(&mut self, colour: u8)
        ensures { (c : ℕ) → IsMarked self.new.marks c ↔ (IsMarked self.old.marks c × (c ≢ colour)) }
    {
        let colour = usize::from(colour);
        if self.marks[colour] {
            self.marks[colour] = false;
            self.count -= 1;
        }
    }
}
