ghost use Rattle.plan.specs.Reach.{FirstPlace};

// The place of the first of these names that is `name`.
pub(crate) fn find(names: &[u32], name: u64) -> Option<usize>
    ensures { FirstPlace names.now name result }
{
    names.iter().position(|borne| u64::from(*borne) == name)
}
