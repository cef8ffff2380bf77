use crate::entries::{Entries, name_of};
use crate::near::Nearby;
use balls::Neighbourhoods;
use kind::{Cost, Delay, Paid};
use measure::{Square, measure};
use plan::{Closed, LinkView, RelayView};
use std::{fmt, io};

// A cost as a field of a table: its numbers alone.
#[derive(Drop)]
pub(crate) struct Field<C>(C);

impl fmt::Display for Field<Delay> {
    fn fmt<W: fmt::Write>(&self, f: &mut fmt::Formatter<W>) -> fmt::Result {
        write!(f, "{}", self.0.ticks)
    }
}

impl fmt::Display for Field<Paid> {
    fn fmt<W: fmt::Write>(&self, f: &mut fmt::Formatter<W>) -> fmt::Result {
        write!(f, "{}+{}", self.0.segments, self.0.delay)
    }
}

// Prints the heading of a table: the names of the relays.
fn print_heading(rt: &impl Print, title: &str, names: &[u32]) -> io::Result<()> {
    print!(rt; "{title:>16}")?;
    for name in names {
        print!(rt; " {name:>16}")?;
    }
    println!(rt; "")
}

// Prints a table by name, a row and a column for each relay:
// `print_cell` prints the cell of a pair, of its value.
fn print_table<V: Copy, F: Fn(V) -> io::Result<()>>(
    rt: &impl Print,
    title: &str,
    names: &[u32],
    cells: &[V],
    print_cell: F,
) -> io::Result<()>
    requires { F.IsAlwaysCallable print_cell }
{
    print_heading(rt, title, names)?;
    let square = Square::new(names.len(), cells);
    for (u, name) in names.iter().enumerate() {
        print!(rt; "{name:>16}")?;
        for value in square.row(u).unwrap_or(&[]) {
            print_cell(*value)?;
        }
        println!(rt; "")?;
    }
    Ok(())
}

// Measures a closed plan, and prints its distances, its next relays and what each relay sees.
pub(crate) fn print_measures<C: Cost>(
    rt: &HostRuntime,
    closed: Closed,
    entries: &Entries<C>,
) -> io::Result<()>
where
    Field<C>: fmt::Display,
{
    let heap = rt.alloc();
    let names = entries.names;
    let side = usize::from(entries.counts.relays);
    let mut distances = vec![in heap; C::zero(); side * side]?;
    let mut nexts = vec![in heap; 0; side * side]?;
    let relays = RelayView::new(names, entries.colours);
    let links = LinkView::new(entries.ends, entries.costs);
    let measured = match measure(closed, &relays, &links, &mut distances, &mut nexts) {
        Ok(measured) => measured,
        Err((_, refusal)) => return println!(rt; "refused {} by measuring", refusal.number()),
    };
    print_table(rt, "distance", names, &distances, |cost| {
        let cell = format!(in heap; "{}", Field(cost))?;
        print!(rt; " {cell:>16}")
    })?;
    print_table(rt, "next", names, &nexts, |next| {
        print!(rt; " {:>16}", name_of(names, next))
    })?;
    match Neighbourhoods::new(&measured, entries.colours, &distances) {
        Ok(near) => Nearby::new(names, &near, entries.counts.colours).print(rt),
        Err(refusal) => println!(rt; "refused {} by the neighbourhoods", refusal.number()),
    }
}
