ghost use Rattle.std.specs.Prelude.{◌≡◌};
ghost use Rattle.order.specs.Mistakes.{AnyMemberFails, FixedSizeFails, EntryOrderFails};

/// How many classic mistakes are shown to fail:
/// any ball member of the right colour as manager, balls of a fixed size,
/// and ties by the order of entry of links. For each there is a plan on which it fails.
#[tactic(auto, using(crate::proofs::Wrong::any_member_fails, crate::proofs::Wrong::fixed_size_fails, crate::proofs::Wrong::entry_order_fails))]
pub fn classic_mistakes() -> u8
    ensures value { result ≡ 3 }
    ensures member { AnyMemberFails }
    ensures size { FixedSizeFails }
    ensures entry { EntryOrderFails }
{
    3
}
