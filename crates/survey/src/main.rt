//! Surveys the plan in plan.txt, and prints each thing that it does.

#![tactic(auto)]

mod entries;
mod near;
mod tables;

use entries::Lists;
use kind::{Delay, Paid};
use plan::{Counts, Refusal};
use plan_text::{PlanKind, Refused, Refuser, TextCost, read_plan};
use std::{fmt, fs, io};
use tables::{Field, print_measures};

// Prints a refusal: its number and what it tells, the line, and who refused.
fn print_refused(rt: &impl Print, refusal: Refusal, line: u32, by: Refuser) -> io::Result<()> {
    print!(rt; "refused {} at line {line} by {by}", refusal.number())?;
    match refusal {
        Refusal::ColourAbsent(colour) => println!(rt; ": colour {colour} is absent"),
        Refusal::OutOfReach(relay) => println!(rt; ": relay {relay} is out of reach"),
        _ => println!(rt; ""),
    }
}

// Reads a plan of one kind, and prints what came of it.
fn survey<C: TextCost + fmt::Display>(rt: &HostRuntime, text: &[u8]) -> io::Result<()>
where
    Field<C>: fmt::Display,
{
    let mut lists = Lists::new(rt.alloc())?;
    let (mut relays, mut links) = lists.lend();
    match read_plan(text, &mut relays, &mut links) {
        Ok(closed) => {
            let entries = lists.entries(closed.counts());
            entries.print(rt)?;
            let Counts {
                colours,
                relays,
                links,
            } = entries.counts;
            println!(rt; "closed: {colours} colours, {relays} relays, {links} links")?;
            print_measures(rt, closed, &entries)
        }
        Err(refused) => {
            let Refused {
                refusal,
                line,
                by,
                draft,
            } = refused;
            if let Some(draft) = draft {
                lists.entries(draft.counts()).print(rt)?;
            }
            print_refused(rt, refusal, line, by)
        }
    }
}

fn main(rt: HostRuntime) -> io::Result<()> {
    let text = fs::read(&rt, "plan.txt")?;
    match PlanKind::of_text(&text) {
        Some(PlanKind::Paid) => {
            println!(rt; "kind: paid")?;
            survey::<Paid>(&rt, &text)
        }
        Some(PlanKind::Delay) => {
            println!(rt; "kind: delay")?;
            survey::<Delay>(&rt, &text)
        }
        None => survey::<Delay>(&rt, &text),
    }
}
