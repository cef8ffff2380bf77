// Whether a relay was reached from the source.
#[derive(Clone, Copy)]
pub(crate) enum Mark {
    // No walk is known yet.
    Unknown,
    // Some walk is known.
    Open,
    // A cheapest walk is known.
    Settled,
}
