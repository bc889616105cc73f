// A controller of the console: its state and its lent store.
use crate::{bench, commands, lookup};
use block::STATE_SIZE;
use lines::limits::BUFFER_MAX;
use lines::parse::{Change, Look, Poke};
use lines::print::Hex;
use lines::why::{Refusal, Why};
use std::alloc::{AllocError, Global};
use std::io;
use std::io::Write;

// How long each store is at the start.
const BUFFER_START: usize = store::STORE_MOST;

#[derive(Drop)]
pub struct Controller {
    pub state: [u8; STATE_SIZE],
    pub store: Vec<u8>,
}

impl Controller {
    // A controller whose store can grow to the longest with no more memory.
    pub fn new(alloc: Global) -> Result<Controller, AllocError> {
        let mut store = Vec::with_capacity(alloc, BUFFER_MAX)?;
        store.resize(BUFFER_START, 0)?;
        Ok(Controller {
            state: [0; STATE_SIZE],
            store,
        })
    }

    // Refuses to set a byte that the store does not have.
    pub fn check(&self, change: &Change) -> Result<(), Refusal> {
        match change {
            Change::Poke(Poke::Byte { offset, .. }) if self.store.len() <= *offset => {
                Err(Refusal {
                    why: Why::Outside,
                    field: Some(2),
                })
            }
            _ => Ok(()),
        }
    }

    // Carries out a command that changes the controller.
    pub fn change<W: Write>(
        &mut self,
        writer: &mut W,
        change: &Change,
        out: &mut Vec<u8>,
    ) -> io::Result<()> {
        let state = &mut self.state;
        let store = self.store.as_mut_slice();
        match change {
            Change::SetUp { actor, name } => {
                write!(writer, " {}", capi::ptl_set_up(*actor, name, state))
            }
            Change::Add {
                label,
                context,
                out: length,
            } => commands::add(writer, self, label, context, commands::lend(out, *length)?),
            Change::Remove {
                context,
                out: length,
            } => commands::remove(writer, self, context, commands::lend(out, *length)?),
            Change::Take { message } => {
                write!(writer, " {}", capi::ptl_take_in(state, store, message))
            }
            Change::Compact => write!(writer, " {}", capi::ptl_compact(state, store)),
            Change::Load { actor, image } => {
                let answer = capi::ptl_load_image(*actor, image, state, store);
                write!(writer, " {answer}")
            }
            Change::Buffer { length, fill } => {
                bench::buffer(self, *length, *fill)?;
                write!(writer, " {length}")
            }
            Change::Poke(poke) => {
                bench::poke(self, poke);
                Ok(())
            }
        }
    }

    // Carries out a command that reads the controller.
    pub fn look<W: Write>(&self, writer: &mut W, look: &Look, out: &mut Vec<u8>) -> io::Result<()> {
        match look {
            Look::List { out: length } => {
                commands::list(writer, self, commands::lend(out, *length)?)
            }
            Look::Page { start, out: length } => {
                commands::page(writer, self, start, commands::lend(out, *length)?)
            }
            Look::LookUp { label } => lookup::look_up(writer, self, label),
            Look::Image { out: length } => {
                commands::image(writer, self, commands::lend(out, *length)?)
            }
            Look::State => bench::show_state(writer, &self.state),
            Look::Store => {
                let store = Hex(&self.store);
                write!(writer, " {store}")
            }
        }
    }
}
