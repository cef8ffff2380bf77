ghost use Rattle.std.specs.Prelude.{◌≤◌};

use kind::Delay;
use plan::{Draft, Ends, LinkLists, LinkView, Refusal, RelayLists};
use std::ops::RangeInclusive;

// The draft that a step gives back, and the number of its answer: 0 for an accepted step.
// A number, since the numbers of the refusals are what these tests look at.
fn answer(step: Result<Draft, (Draft, Refusal)>) -> (Draft, u8) {
    match step {
        Ok(draft) => (draft, 0),
        Err((draft, refusal)) => (draft, refusal.number()),
    }
}

// What adding a relay of this name and colour to a draft of two colours answers,
// with relay 10 there.
fn relay_answer(name: u64, colour: u64) -> Option<u8> {
    let (mut names, mut colours) = ([0; 4], [0; 4]);
    let mut relays = RelayLists {
        names: &mut names,
        colours: &mut colours,
    };
    let links = LinkView::<Delay>::new(&[], &[]);
    let draft = Draft::open(2).ok()?;
    let draft = draft.add_relay(&mut relays, &links, 10, 1).ok()?;
    Some(answer(draft.add_relay(&mut relays, &links, name, colour)).1)
}

// A draft of one colour with relays of these names,
// as far as they are accepted, and the number of the last answer.
fn relays_named(
    names: RangeInclusive<u64>,
    relays: &mut RelayLists,
    links: &LinkView<Delay>,
) -> Option<(Draft, u8)> {
    let mut draft = Draft::open(1).ok()?;
    let mut number = 0;
    for name in names {
        let (back, answered) = answer(draft.add_relay(relays, links, name, 1));
        draft = back;
        number = answered;
    }
    Some((draft, number))
}

// What adding a link answers, with relays 10, 11 and 12 and a link from 10 to 11 there.
fn link_answer(from: u64, to: u64, ticks: u32) -> Option<u8> {
    let (mut names, mut colours) = ([0; 4], [0; 4]);
    let mut relays = RelayLists {
        names: &mut names,
        colours: &mut colours,
    };
    let (mut ends, mut costs) = ([Ends { from: 0, to: 0 }; 4], [Delay { ticks: 0 }; 4]);
    let mut links = LinkLists {
        ends: &mut ends,
        costs: &mut costs,
    };
    let (draft, _) = relays_named(10..=12, &mut relays, &links.view())?;
    let relays = relays.view();
    let (draft, _) = answer(draft.add_link(&relays, &mut links, 10, 11, Delay { ticks: 1 }));
    Some(answer(draft.add_link(&relays, &mut links, from, to, Delay { ticks })).1)
}

#[test]
fn link_costs(rt: HostRuntime) {
    assert_eq!(rt; link_answer(11, 12, 1_000_000), Some(0));
    assert_eq!(rt; link_answer(11, 12, 1), Some(0));
    assert_eq!(rt; link_answer(11, 12, 1_000_001), Some(2));
    assert_eq!(rt; link_answer(11, 12, 0), Some(2));
}

#[test]
fn link_ends(rt: HostRuntime) {
    assert_eq!(rt; link_answer(0, 12, 1), Some(4), "an end 0");
    assert_eq!(rt;
        link_answer(11, 13, 1),
        Some(4),
        "an end that no relay bears"
    );
    assert_eq!(rt; link_answer(12, 12, 1), Some(4), "equal ends");
    assert_eq!(rt; link_answer(10, 11, 1), Some(4), "a pair already linked");
    assert_eq!(rt;
        link_answer(11, 10, 1),
        Some(4),
        "the same pair the other way round"
    );
    assert_eq!(rt;
        link_answer(4_294_967_296, 12, 1),
        Some(2),
        "an end past the largest name"
    );
    assert_eq!(rt;
        link_answer(4_294_967_295, 12, 1),
        Some(4),
        "the largest name, which no relay bears"
    );
}

#[test]
fn names_and_colours(rt: HostRuntime) {
    assert_eq!(rt; relay_answer(4_294_967_295, 2), Some(0));
    assert_eq!(rt; relay_answer(4_294_967_296, 2), Some(2));
    assert_eq!(rt; relay_answer(0, 2), Some(2));
    assert_eq!(rt; relay_answer(10, 2), Some(3));
    assert_eq!(rt; relay_answer(11, 0), Some(2));
    assert_eq!(rt; relay_answer(11, 3), Some(2));
    assert_eq!(rt;
        relay_answer(10, 3),
        Some(2),
        "a limit comes before a name that is borne"
    );
}

// The answer to the last of so many relays, in lists with N places.
fn last_answer<const N: usize>(count: u64) -> Option<u8>
    requires { N ≤ 300 }
{
    let (mut names, mut colours) = ([0; N], [0; N]);
    let mut relays = RelayLists {
        names: &mut names,
        colours: &mut colours,
    };
    let (_, number) = relays_named(1..=count, &mut relays, &LinkView::new(&[], &[]))?;
    Some(number)
}

#[test]
fn places(rt: HostRuntime) {
    assert_eq!(rt; last_answer::<300>(256), Some(0));
    assert_eq!(rt; last_answer::<300>(257), Some(17));
    assert_eq!(rt; last_answer::<3>(3), Some(0));
    assert_eq!(rt; last_answer::<3>(4), Some(17));
}

// What opening a draft with so many colours answers: a number, as in `answer`.
fn open_answer(colours: u64) -> u8 {
    match Draft::open(colours) {
        Ok(_) => 0,
        Err(refusal) => refusal.number(),
    }
}

#[test]
fn colours_of_a_draft(rt: HostRuntime) {
    assert_eq!(rt; open_answer(0), 2);
    assert_eq!(rt; open_answer(1), 0);
    assert_eq!(rt; open_answer(16), 0);
    assert_eq!(rt; open_answer(17), 2);
}
