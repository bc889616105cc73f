// From a line to the controller it speaks to and the command it gives.
ghost use Rattle.std.specs.Prelude.{◌<◌};

use crate::fields::{
    buffer, byte, context, controller, hex, key_type, name, number, output, row, slot, text,
};
use crate::limits::{ARGUMENTS_MAX, LINE_MAX};
use crate::parts;
use crate::why::{Refusal, Why};
use dots::{Actor, Counter, Dot};
use std::mem;

// The place of a controller among all.
#[derive(Clone, Copy)]
pub struct Place {
    pub index: usize,
    pub ghost in_range: { index < 16 },
}

// What a poke sets: a field of a state, or a byte of a store.
#[derive(Clone, Copy)]
pub enum Poke<'a> {
    Used(u64),
    Actor(u8),
    Name(&'a [u8]),
    NameLength(u64),
    Base { row: u8, base: u64 },
    Window { row: u8, window: u64 },
    Dot { slot: u8, dot: Dot },
    Count(u64),
    Byte { offset: usize, byte: u8 },
}

// A command that changes a controller. Where a command has an output, `out` is its length.
#[derive(Clone, Copy)]
pub enum Change<'a> {
    SetUp {
        actor: u8,
        name: &'a [u8],
    },
    Add {
        label: &'a [u8],
        context: &'a [u8],
        out: usize,
    },
    Remove {
        context: &'a [u8],
        out: usize,
    },
    Take {
        message: &'a [u8],
    },
    Compact,
    Load {
        actor: u8,
        image: &'a [u8],
    },
    Buffer {
        length: usize,
        fill: u8,
    },
    Poke(Poke<'a>),
}

// A command that reads a controller.
#[derive(Clone, Copy)]
pub enum Look<'a> {
    List { out: usize },
    Page { start: &'a [u8], out: usize },
    LookUp { label: &'a [u8] },
    Image { out: usize },
    State,
    Store,
}

// A command that needs no controller.
#[derive(Clone, Copy)]
pub enum Format<'a> {
    Key {
        kind: u8,
        name: &'a [u8],
        label: &'a [u8],
        dot: Dot,
        out: usize,
    },
    ReadKey {
        key: &'a [u8],
    },
    ReadMessage {
        message: &'a [u8],
    },
}

#[derive(Clone, Copy)]
pub enum Command<'a> {
    Change(Change<'a>),
    Look(Look<'a>),
    Merge {
        first: Place,
        second: Place,
        out: usize,
    },
    Format(Format<'a>),
}

// A line: its controller, the command's word, and the command.
#[derive(Clone, Copy)]
pub struct Line<'a> {
    pub controller: Place,
    pub word: &'a [u8],
    pub command: Command<'a>,
}

// ---- fields

// The fields of a command that are left, the number of the last one that was read, and the arguments that are left for their bytes.
#[derive(Drop)]
struct Fields<'a> {
    rest: Option<&'a [u8]>,
    number: usize,
    args: &'a mut [u8],
}

impl<'a> Fields<'a> {
    fn next(&mut self) -> Option<&'a [u8]> {
        self.number = self.number.saturating_add(1);
        let text = self.rest?;
        match parts::split_once(text, b' ') {
            Some((field, rest)) => {
                self.rest = Some(rest);
                Some(field)
            }
            None => {
                self.rest = None;
                Some(text)
            }
        }
    }

    // The refusal of the last field.
    fn refusal(&self, why: Why) -> Refusal {
        Refusal {
            why,
            field: Some(self.number),
        }
    }

    // The next field as it stands.
    fn word(&mut self) -> Result<&'a [u8], Refusal> {
        match self.next() {
            Some(field) => Ok(field),
            None => Err(self.refusal(Why::Missing)),
        }
    }

    // What the next field stands for, which its kind reads.
    fn read<T, F: FnOnce(&[u8]) -> Result<T, Why>>(&mut self, kind: F) -> Result<T, Refusal>
        requires { F.IsAlwaysCallable kind }
    {
        let field = self.word()?;
        kind(field).map_err(|why| self.refusal(why))
    }

    // The bytes that the next field stands for.
    fn read_bytes<F: FnOnce(&[u8], &mut [u8]) -> Result<usize, Why>>(
        &mut self,
        kind: F,
    ) -> Result<&'a [u8], Refusal>
        requires { F.IsAlwaysCallable kind }
    {
        let args = mem::take(&mut self.args);
        let len = self.read(|field| kind(field, args))?.min(args.len());
        let (bytes, rest) = args.split_at_mut(len);
        self.args = rest;
        Ok(bytes)
    }

    // A dot in two fields.
    fn dot(&mut self) -> Result<Dot, Refusal> {
        let actor = self.read(byte)?;
        let counter = self.read(number)?;
        Ok(Dot {
            actor: Actor { number: actor },
            counter: Counter { number: counter },
        })
    }

    // Refuses a field that is left.
    fn end(&mut self) -> Result<(), Refusal> {
        match self.next() {
            Some(_) => Err(self.refusal(Why::TooMany)),
            None => Ok(()),
        }
    }
}

// ---- commands

fn read_poke<'a>(fields: &mut Fields<'a>) -> Result<Poke<'a>, Refusal> {
    match fields.word()? {
        b"used" => Ok(Poke::Used(fields.read(number)?)),
        b"actor" => Ok(Poke::Actor(fields.read(byte)?)),
        b"name" => Ok(Poke::Name(fields.read_bytes(name)?)),
        b"namelen" => Ok(Poke::NameLength(fields.read(number)?)),
        b"base" => Ok(Poke::Base {
            row: fields.read(row)?,
            base: fields.read(number)?,
        }),
        b"window" => Ok(Poke::Window {
            row: fields.read(row)?,
            window: fields.read(number)?,
        }),
        b"dot" => Ok(Poke::Dot {
            slot: fields.read(slot)?,
            dot: fields.dot()?,
        }),
        b"count" => Ok(Poke::Count(fields.read(number)?)),
        b"byte" => Ok(Poke::Byte {
            offset: fields.read(number)? as usize,
            byte: fields.read(byte)?,
        }),
        _ => Err(fields.refusal(Why::NoPoke)),
    }
}

fn read_format<'a>(word: &[u8], fields: &mut Fields<'a>) -> Result<Format<'a>, Refusal> {
    match word {
        b"key" => Ok(Format::Key {
            kind: fields.read(key_type)?,
            name: fields.read_bytes(text)?,
            label: fields.read_bytes(text)?,
            dot: fields.dot()?,
            out: fields.read(output)?,
        }),
        b"readkey" => Ok(Format::ReadKey {
            key: fields.read_bytes(hex)?,
        }),
        b"readmessage" => Ok(Format::ReadMessage {
            message: fields.read_bytes(hex)?,
        }),
        b"" => Err(Refusal::from(Why::NoWord)),
        _ => Err(Refusal::from(Why::NoCommand)),
    }
}

fn read_look<'a>(word: &[u8], fields: &mut Fields<'a>) -> Result<Option<Look<'a>>, Refusal> {
    let look = match word {
        b"list" => Look::List {
            out: fields.read(output)?,
        },
        b"page" => Look::Page {
            start: fields.read_bytes(text)?,
            out: fields.read(output)?,
        },
        b"lookup" => Look::LookUp {
            label: fields.read_bytes(text)?,
        },
        b"image" => Look::Image {
            out: fields.read(output)?,
        },
        b"state" => Look::State,
        b"store" => Look::Store,
        _ => return Ok(None),
    };
    Ok(Some(look))
}

fn read_change<'a>(word: &[u8], fields: &mut Fields<'a>) -> Result<Option<Change<'a>>, Refusal> {
    let change = match word {
        b"setup" => Change::SetUp {
            actor: fields.read(byte)?,
            name: fields.read_bytes(text)?,
        },
        b"add" => Change::Add {
            label: fields.read_bytes(text)?,
            context: fields.read_bytes(context)?,
            out: fields.read(output)?,
        },
        b"remove" => Change::Remove {
            context: fields.read_bytes(context)?,
            out: fields.read(output)?,
        },
        b"take" => Change::Take {
            message: fields.read_bytes(hex)?,
        },
        b"compact" => Change::Compact,
        b"load" => Change::Load {
            actor: fields.read(byte)?,
            image: fields.read_bytes(hex)?,
        },
        b"buffer" => Change::Buffer {
            length: fields.read(buffer)?,
            fill: fields.read(byte)?,
        },
        b"poke" => Change::Poke(read_poke(fields)?),
        _ => return Ok(None),
    };
    Ok(Some(change))
}

fn read_merge<'a>(fields: &mut Fields<'a>) -> Result<Command<'a>, Refusal> {
    Ok(Command::Merge {
        first: fields.read(controller)?,
        second: fields.read(controller)?,
        out: fields.read(output)?,
    })
}

// The command that a word and the fields after it give.
fn read_command<'a>(word: &[u8], fields: &mut Fields<'a>) -> Result<Command<'a>, Refusal> {
    if word == b"merge".as_slice() {
        return read_merge(fields);
    }
    if let Some(change) = read_change(word, fields)? {
        return Ok(Command::Change(change));
    }
    if let Some(look) = read_look(word, fields)? {
        return Ok(Command::Look(look));
    }
    Ok(Command::Format(read_format(word, fields)?))
}

// ---- lines

// Refuses a text that has no line's form.
fn check_form(text: &[u8]) -> Result<(), Why> {
    if LINE_MAX < text.len() {
        return Err(Why::LongLine);
    }
    if text.contains(&b'\r') {
        return Err(Why::CarriageReturn);
    }
    if text.split(|b| *b == b' ').any(|field| field.is_empty()) {
        return Err(Why::Space);
    }
    Ok(())
}

// The controller that a line speaks to, and the line without it.
fn split_controller(text: &[u8]) -> Result<(Place, &[u8]), Why> {
    if !text.starts_with(b"@") {
        return Ok((Place { index: 0 }, text));
    }
    let (at, body) = parts::split_once(text, b' ').unwrap_or((text, b""));
    Ok((controller(at)?, body))
}

// Reads a line. The bytes that its fields stand for are put into the arguments.
pub fn read_line<'a>(
    text: &'a [u8],
    args: &'a mut [u8; ARGUMENTS_MAX],
) -> Result<Line<'a>, Refusal> {
    check_form(text)?;
    let (controller, body) = split_controller(text)?;
    let mut fields = Fields {
        rest: Some(body),
        number: 0,
        args,
    };
    let word = fields.next().unwrap_or_default();
    fields.number = 0;
    let command = read_command(word, &mut fields)?;
    fields.end()?;
    Ok(Line {
        controller,
        word,
        command,
    })
}

#[cfg(test)]
mod tests {
    use super::*;

    #[test]
    fn reads_a_line(rt: HostRuntime) -> Result<(), Refusal> {
        let mut args = [0u8; ARGUMENTS_MAX];
        let line = read_line(b"@3 take 0aff", &mut args)?;
        assert_eq!(rt; line.controller.index, 3);
        assert_eq!(rt; line.word, b"take".as_slice());
        match &line.command {
            Command::Change(Change::Take { message }) => {
                assert_eq!(rt; *message, b"\x0a\xff".as_slice());
            }
            _ => panic!(rt; "another command"),
        }
        Ok(())
    }

    #[test]
    fn refuses_a_field(rt: HostRuntime) {
        let why = Why::NoCounter;
        let mut args = [0u8; ARGUMENTS_MAX];
        let refusal = read_line(b"remove 1:2,3 100", &mut args).err();
        assert_eq!(rt;
            refusal,
            Some(Refusal {
                why,
                field: Some(1)
            })
        );
    }
}
