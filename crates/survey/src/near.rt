use crate::entries::name_of;
use balls::Neighbourhoods;
use kind::Cost;
use std::io;

// The neighbourhoods of a plan of so many colours, and the names to print them by.
#[derive(Drop)]
pub(crate) struct Nearby<'a, C: Cost> {
    names: &'a [u32],
    near: &'a Neighbourhoods<'a, C>,
    palette: u8,
}

impl<'a, C: Cost> Nearby<'a, C> {
    pub(crate) fn new(
        names: &'a [u32],
        near: &'a Neighbourhoods<'a, C>,
        palette: u8,
    ) -> Nearby<'a, C> {
        Nearby {
            names,
            near,
            palette,
        }
    }

    // Prints the names of these relays.
    fn print_names(&self, rt: &impl Print, relays: &[u16]) -> io::Result<()> {
        for relay in relays {
            print!(rt; " {}", name_of(self.names, *relay))?;
        }
        Ok(())
    }

    // Prints the managers for the colours.
    fn print_managers(&self, rt: &impl Print, order: &[u16]) -> io::Result<()> {
        for colour in 1..=self.palette {
            if let Some(relay) = self.near.manager(order, colour) {
                print!(rt; " {}", name_of(self.names, relay))?;
            }
        }
        Ok(())
    }

    // Prints what one relay sees: its ball in order,
    // its managers and its home. Answers the ball's size, 0 where there is no ball: never so
    // in a closed plan.
    fn print_ball(&self, rt: &impl Print, name: u32, order: &[u16]) -> io::Result<usize> {
        let size = self.near.ball_size(order).unwrap_or(0);
        print!(rt; "near {name}: ball of {size}:")?;
        self.print_names(rt, order.get(..size).unwrap_or(order))?;
        print!(rt; "; managers:")?;
        self.print_managers(rt, order)?;
        match self.near.home(order) {
            Some(relay) => println!(rt; "; home: {}", name_of(self.names, relay))?,
            None => println!(rt; "; no home")?,
        }
        Ok(size)
    }

    // Prints what each relay sees, and then the largest ball and the mean, in tenths.
    pub(crate) fn print(&self, rt: &HostRuntime) -> io::Result<()> {
        let mut order = vec![in rt.alloc(); 0; self.names.len()]?;
        let (mut largest, mut total) = (0usize, 0usize);
        for (relay, name) in (0u16..).zip(self.names) {
            match self.near.order_from(relay, &mut order) {
                Ok(()) => {
                    let size = self.print_ball(rt, *name, &order)?;
                    largest = largest.max(size);
                    total = total.saturating_add(size);
                }
                Err(refusal) => println!(rt; "near {name}: refused {}", refusal.number())?,
            }
        }
        let tenths = total.saturating_mul(10) / self.names.len().max(1);
        println!(rt;
            "largest ball: {largest}; mean: {}.{}",
            tenths / 10,
            tenths % 10
        )
    }
}
