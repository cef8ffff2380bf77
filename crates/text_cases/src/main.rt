//! Reads each text of a table, and prints what came of it.
//! A line of cases.txt is a name, a bar and a text, in which a slash stands for the end of a line.

#![tactic(auto)]

use kind::{Delay, Paid};
use plan::{Ends, LinkLists, Refusal, RelayLists};
use plan_text::{PlanKind, TextCost, read_plan};
use std::{fs, io};

// The places of the lists: fewer than a plan may have, so that a plan can be too large for them.
const RELAYS: usize = 64;

const LINKS: usize = 256;

// Reads one text, and prints what came of it.
fn try_text<C: TextCost>(rt: &HostRuntime, text: &[u8]) -> io::Result<()> {
    // Set up here, list by list: the library is lent its memory as separate lists.
    let heap = rt.alloc();
    let mut names = vec![in heap; 0; RELAYS]?;
    let mut colours = vec![in heap; 0; RELAYS]?;
    let mut ends = vec![in heap; Ends { from: 0, to: 0 }; LINKS]?;
    let mut costs = vec![in heap; C::zero(); LINKS]?;
    let mut relays = RelayLists {
        names: &mut names,
        colours: &mut colours,
    };
    let mut links = LinkLists {
        ends: &mut ends,
        costs: &mut costs,
    };
    match read_plan(text, &mut relays, &mut links) {
        Ok(closed) => {
            let counts = closed.counts();
            let relays = counts.relays;
            let links = counts.links;
            println!(rt; "accepted, {relays} relays, {links} links")
        }
        Err(refused) => {
            let number = refused.refusal.number();
            let line = refused.line;
            let by = refused.by;
            print!(rt; "refused {number} at line {line} by {by}")?;
            match refused.refusal {
                Refusal::ColourAbsent(colour) => println!(rt; ", colour {colour}"),
                Refusal::OutOfReach(relay) => println!(rt; ", relay {relay}"),
                _ => println!(rt; ""),
            }
        }
    }
}

fn main(rt: HostRuntime) -> io::Result<()> {
    let table = fs::read_to_string(&rt, "cases.txt")?;
    for case in table.lines() {
        let Some((name, folded)) = case.split_once('|') else {
            continue;
        };
        let text = folded.replace(rt.alloc(), '/', "\n")?;
        let bytes = text.as_bytes();
        print!(rt; "{name}: ")?;
        match PlanKind::of_text(bytes) {
            Some(PlanKind::Paid) => try_text::<Paid>(&rt, bytes)?,
            _ => try_text::<Delay>(&rt, bytes)?,
        }
    }
    Ok(())
}
