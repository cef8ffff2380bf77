ghost use Rattle.std.specs.Prelude.{◌≡◌, ◌++◌, MatchOption, MatchResult, IfOk, IfErr, OnErr, Some};
ghost use Rattle.plan.specs.declared.refusal.Refusal.TheVariants.{NotInForm};
ghost use Rattle.plan_text.specs.declared.refused.Refuser.TheVariants.{Text as by_text};
ghost use Rattle.plan.specs.Plan.{Plan, Lists, lists};
ghost use Rattle.plan.specs.Lent.{relays_in, links_in, SameRelays, SameLinks};
ghost use Rattle.plan.specs.Sound.{Sound};
ghost use Rattle.plan.specs.Rules.{Closable};
ghost use Rattle.plan_text.specs.Text.{Lacks, relay_heading, text_of};
ghost use Rattle.plan_text.specs.Reading.{lists_in, Says, Stopped, Read, Fits, Gives};
ghost use Rattle.plan_text.specs.Stages.{HeaderRead, Begun, RelayRead, RelayStopped, LinkRead, LinkStopped};
ghost use Rattle.plan_text.specs.Stages.{ReadsRelays, StopsInRelays, ReadsLinks, StopsInLinks};

use crate::plan_kind::behind_heading;
use crate::refused::{Refused, Refuser};
use crate::scan::{literal, row};
use crate::text_cost::TextCost;
use kind::Cost;
use plan::{
    Closed, Draft, LinkLists, LinkView, MOST_LINKS, MOST_RELAYS, Refusal, RelayLists, RelayView,
};

// A line of a link has so many numbers at most: the names of the two ends, and three of its cost.
const MOST_NUMBERS: usize = 5;

// The numbers of the first block.
#[derive(Clone, Copy)]
struct HeaderCounts {
    colours: u64,
    relays: u64,
    links: u64,
}

// How far the text is read: the draft, how many relays and links there are to be,
// and the rest of the text.
#[derive(Drop)]
struct Progress<'a> {
    draft: Draft,
    relays: u16,
    links: u16,
    rest: &'a [u8],
}

impl Progress<'_> {
    // The text is not in form at this line.
    fn not_in_form(self, line: u32) -> Refused
        ensures { Says result NotInForm line by_text (Some self.entry.draft) }
    {
        Refused::new(Refusal::NotInForm, line, Refuser::Text, Some(self.draft))
    }
}

// Reads the first block; answers its numbers and the text behind it.
fn read_counts<C: TextCost>(text: &[u8]) -> Result<(HeaderCounts, &[u8]), Refused>
    ensures read { IfOk result (λ x. HeaderRead C.text_kind.kind text.now x.0 x.1.now) }
    ensures stopped { IfErr result (λ e.
        (l : Lists C) → Stopped C.kind C.text_kind text.now l l e) }
{
    let Some(first) = behind_heading(text) else {
        return Err(Refused::new(Refusal::NotInForm, 1, Refuser::Text, None));
    };
    let Some(second) = C::plan_kind().behind_letter(first) else {
        return Err(Refused::new(Refusal::NotInForm, 2, Refuser::Text, None));
    };
    let mut numbers = [0; 3];
    let Some(rest) = row(second, &mut numbers) else {
        return Err(Refused::new(Refusal::NotInForm, 2, Refuser::Text, None));
    };
    let [colours, relays, links] = numbers;
    let counts = HeaderCounts {
        colours,
        relays,
        links,
    };
    Ok((counts, rest))
}

// The text behind the heading of the relays, if it begins with that.
fn behind_relay_heading(text: &[u8]) -> Option<&[u8]>
    ensures { MatchOption result (Lacks text.now relay_heading)
        (λ rest. text.now ≡ relay_heading ++ rest.now) }
{
    literal(text, b"name colour\n")
}

// Reads the first block, opens the draft, and reads the heading of the second block.
fn read_start<C: TextCost>(text: &[u8]) -> Result<Progress<'_>, Refused>
    ensures read { IfOk result (λ s. Begun C.text_kind.kind text.now s) }
    ensures stopped { IfErr result (λ e.
        (l : Lists C) → Stopped C.kind C.text_kind text.now l l e) }
{
    let (counts, second_block) = read_counts::<C>(text)?;
    if counts.relays < 1 || counts.relays > MOST_RELAYS as u64 || counts.links > MOST_LINKS as u64 {
        return Err(Refused::new(Refusal::BeyondLimit, 2, Refuser::Text, None));
    }
    let opened = Draft::open(counts.colours);
    let draft = opened.map_err(|refusal| Refused::new(refusal, 2, Refuser::Draft, None))?;
    let Some(rest) = behind_relay_heading(second_block) else {
        return Err(Refused::new(Refusal::NotInForm, 3, Refuser::Text, Some(draft)));
    };
    Ok(Progress {
        draft,
        relays: counts.relays as u16,
        links: counts.links as u16,
        rest,
    })
}

// Reads the line of a relay, and adds the relay.
fn read_relay<'a, C: Cost>(
    progress: Progress<'a>,
    line: u32,
    relays: &mut RelayLists,
    links: &LinkView<C>,
) -> Result<Progress<'a>, Refused>
    ensures read { IfOk result (λ s. RelayRead C.kind progress.entry s
        (lists (relays_in relays.old) links.now) (lists (relays_in relays.new) links.now)) }
    ensures stopped { IfErr result (λ e. RelayStopped progress.entry line
        (lists (relays_in relays.old) links.now) e) }
    ensures unchanged { OnErr result (relays_in relays.new ≡ relays_in relays.old) }
    ensures lent { SameRelays relays.old relays.new }
{
    let mut numbers = [0; 2];
    let Some(rest) = row(progress.rest, &mut numbers) else {
        return Err(progress.not_in_form(line));
    };
    let [name, colour] = numbers;
    let draft = progress
        .draft
        .add_relay(relays, links, name, colour)
        .map_err(|(draft, refusal)| Refused::new(refusal, line, Refuser::Draft, Some(draft)))?;
    Ok(Progress {
        draft,
        rest,
        ..progress
    })
}

// Reads the line of a link, and adds the link.
fn read_link<'a, C: TextCost>(
    progress: Progress<'a>,
    line: u32,
    relays: &RelayView,
    links: &mut LinkLists<C>,
) -> Result<Progress<'a>, Refused>
    ensures read { IfOk result (λ s. LinkRead C.kind C.text_kind progress.entry s
        (lists relays.now (links_in links.old)) (lists relays.now (links_in links.new))) }
    ensures stopped { IfErr result (λ e. LinkStopped C.kind C.text_kind progress.entry line
        (lists relays.now (links_in links.old)) e) }
    ensures unchanged { OnErr result (links_in links.new ≡ links_in links.old) }
    ensures lent { SameLinks links.old links.new }
{
    // An array cut to size: there is no heap in this library.
    let mut buffer = [0; MOST_NUMBERS];
    let numbers = &mut buffer[0..2 + C::numbers()];
    let Some(rest) = row(progress.rest, numbers) else {
        return Err(progress.not_in_form(line));
    };
    let cost = C::from_numbers(&numbers[2..]);
    let draft = progress
        .draft
        .add_link(relays, links, numbers[0], numbers[1], cost)
        .map_err(|(draft, refusal)| Refused::new(refusal, line, Refuser::Draft, Some(draft)))?;
    Ok(Progress {
        draft,
        rest,
        ..progress
    })
}

// Reads the lines of the relays, from line 4 on, of a text that is begun.
fn read_relays<'a, C: TextCost>(
    mut progress: Progress<'a>,
    relays: &mut RelayLists,
    links: &LinkView<C>,
) -> Result<Progress<'a>, Refused>
    ensures read { IfOk result (λ s. ReadsRelays C.kind C.text_kind progress.entry s
        (lists (relays_in relays.old) links.now) (lists (relays_in relays.new) links.now)) }
    ensures stopped { IfErr result (λ e. StopsInRelays C.kind C.text_kind progress.entry e
        (lists (relays_in relays.old) links.now) (lists (relays_in relays.new) links.now)) }
    ensures lent { SameRelays relays.old relays.new }
{
    for line in 4..4 + u32::from(progress.relays) {
        progress = read_relay(progress, line, relays, links)?;
    }
    Ok(progress)
}

// Reads the heading of the last block, and the lines of the links, of a text whose relays are read.
fn read_links<'a, C: TextCost>(
    progress: Progress<'a>,
    relays: &RelayView,
    links: &mut LinkLists<C>,
) -> Result<Progress<'a>, Refused>
    ensures read { IfOk result (λ s. ReadsLinks C.kind C.text_kind progress.entry s
        (lists relays.now (links_in links.old)) (lists relays.now (links_in links.new))) }
    ensures stopped { IfErr result (λ e. StopsInLinks C.kind C.text_kind progress.entry e
        (lists relays.now (links_in links.old)) (lists relays.now (links_in links.new))) }
    ensures lent { SameLinks links.old links.new }
{
    let heading = 4 + u32::from(progress.relays);
    let Some(rest) = literal(progress.rest, C::plan_kind().heading()) else {
        return Err(progress.not_in_form(heading));
    };
    let mut progress = Progress { rest, ..progress };
    let first = heading + 1;
    for line in first..first + u32::from(progress.links) {
        progress = read_link(progress, line, relays, links)?;
    }
    Ok(progress)
}

/// Reads the text of a plan of this kind of costs into the lists, and closes the plan.
/// The text of every sound and closable plan that the lists have room for is accepted, and the
/// lists then hold that plan. Any other is refused at the first line that is wrong: with
/// `NotInForm` for its form, `BeyondLimit` for the numbers of relays and links, and else with what
/// the draft or the closing says. Behind the entries that were read the lists are as they were.
pub fn read_plan<C: TextCost>(
    text: &[u8],
    relays: &mut RelayLists,
    links: &mut LinkLists<C>,
) -> Result<Closed, Refused>
    ensures outcome { MatchResult result
        (λ p. Read C.kind C.text_kind text.now
        (lists_in relays.old links.old) (lists_in relays.new links.new) p)
        (λ e. Stopped C.kind C.text_kind text.now
        (lists_in relays.old links.old) (lists_in relays.new links.new) e) }
    ensures complete { (p : Plan C) → Sound C.kind p → Closable p
        → Fits p (lists_in relays.old links.old) → text.now ≡ text_of C.text_kind p
        → Gives p (lists_in relays.new links.new) result }
    ensures lent_relays { SameRelays relays.old relays.new }
    ensures lent_links { SameLinks links.old links.new }
{
    let progress = read_start::<C>(text)?;
    let progress = read_relays(progress, relays, &links.view())?;
    let progress = read_links(progress, &relays.view(), links)?;
    if !progress.rest.is_empty() {
        let line = 5 + u32::from(progress.relays) + u32::from(progress.links);
        return Err(progress.not_in_form(line));
    }
    let closing = progress.draft.close(&relays.view(), &links.view());
    closing.map_err(|(draft, refusal)| Refused::new(refusal, 0, Refuser::Closing, Some(draft)))
}
