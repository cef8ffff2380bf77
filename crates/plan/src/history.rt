ghost use Rattle.std.specs.Prelude.{◌≡◌, ℕ, List, []};
ghost use Rattle.plan.specs.declared.counts.Counts.{Counts};
ghost use Rattle.plan.specs.Plan.{Plan, Lists, plan_of};
ghost use Rattle.plan.specs.Sound.{Sound};
ghost use Rattle.plan.specs.History.{Made, Drafted};

use kind::Cost;

/// What holds of every list of calls on a draft, refused ones included. An opened draft has the empty plan, in whatever
/// lists; each call takes the plan on, as its clause `history` says. The plan is sound at each step, and the same calls
/// draft the same plan.
pub fn drafting<C: Cost>()
    ensures opened { (n : Counts) (l : Lists C) → n.relays ≡ 0 → n.links ≡ 0
        → Drafted C.kind n.colours [] (plan_of n l) }
    ensures sound { (k : ℕ) (calls : List (Made C)) (p : Plan C) → Drafted C.kind k calls p
        → Sound C.kind p }
    ensures settled { (k : ℕ) (calls : List (Made C)) (p q : Plan C) → Drafted C.kind k calls p
        → Drafted C.kind k calls q → p ≡ q }
{}
