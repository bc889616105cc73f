// The console: reads commands from standard input, one to a line, carries them out on sixteen controllers, and writes a line for each.
// It is the console of the command `ptl`, line for line, over the same interface.

#![tactic(auto)]

mod bench;
mod commands;
mod formats;
mod lookup;
mod rack;

use lines::limits::{ARGUMENTS_MAX, CONTROLLERS, LINE_MAX, OUT_MAX};
use lines::parse;
use lines::parse::{Command, Line};
use lines::why::{Refusal, Why};
use rack::Controller;
use std::alloc::Global;
use std::io::{BufWriter, Read, Write};
use std::{array, io};

// The longest input. One as long or longer is refused.
const INPUT_MAX: usize = 2097152;

// The controllers, the room for an output, and where the lines go.
#[derive(Drop)]
struct Console<W: Write + Drop> {
    writer: W,
    controllers: [Controller; CONTROLLERS],
    out: Vec<u8>,
}

impl<W: Write + Drop> Console<W> {
    fn new(alloc: Global, writer: W) -> io::Result<Self> {
        let controllers = array::try_from_fn(|_| Controller::new(alloc))?;
        let out = Vec::with_capacity(alloc, OUT_MAX)?;
        Ok(Console {
            writer,
            controllers,
            out,
        })
    }

    // Reads a line that can be carried out.
    fn read<'a>(
        &self,
        text: &'a [u8],
        args: &'a mut [u8; ARGUMENTS_MAX],
    ) -> Result<Line<'a>, Refusal> {
        let line = parse::read_line(text, args)?;
        if let Command::Change(change) = &line.command {
            self.controllers[line.controller.index].check(change)?;
        }
        Ok(line)
    }

    // Carries out a command, and writes its answer.
    fn carry_out(&mut self, line: &Line) -> io::Result<()> {
        let writer = &mut self.writer;
        let out = &mut self.out;
        let controllers = &mut self.controllers;
        let at = line.controller.index;
        match &line.command {
            Command::Change(change) => controllers[at].change(writer, change, out),
            Command::Look(look) => {
                let controllers = &*controllers;
                controllers[at].look(writer, look, out)
            }
            Command::Merge {
                first,
                second,
                out: length,
            } => {
                let controllers = &*controllers;
                let first = &controllers[first.index];
                let second = &controllers[second.index];
                commands::merge(writer, first, second, commands::lend(out, *length)?)
            }
            Command::Format(format) => formats::run(writer, format, out),
        }
    }

    // Answers a line, unless it is blank or a comment.
    fn answer(&mut self, text: &[u8], args: &mut [u8; ARGUMENTS_MAX]) -> io::Result<()> {
        let is_silent = text.is_empty() || text.starts_with(b"#");
        if is_silent && text.len() <= LINE_MAX {
            return Ok(());
        }
        match self.read(text, args) {
            Ok(line) => {
                self.writer.write_all(line.word)?;
                self.carry_out(&line)?;
                writeln!(self.writer)
            }
            Err(refusal) => writeln!(self.writer, "{refusal}"),
        }
    }

    // Answers the input line by line.
    fn run(&mut self, input: &[u8], args: &mut [u8; ARGUMENTS_MAX]) -> io::Result<()> {
        if INPUT_MAX <= input.len() {
            let refusal = Refusal::from(Why::LongInput);
            return writeln!(self.writer, "{refusal}");
        }
        for text in input.split(|b| *b == b'\n') {
            self.answer(text, args)?;
        }
        Ok(())
    }
}

// The input, of which no more than the longest is read.
fn read_input(rt: &(impl Input + AllocGlobal)) -> io::Result<Vec<u8>> {
    let mut input = Vec::new(rt.alloc());
    rt.reader().take(INPUT_MAX as u64).read_to_end(&mut input)?;
    Ok(input)
}

fn main(rt: HostRuntime) -> io::Result<()> {
    let input = read_input(&rt)?;
    let writer = BufWriter::new(rt.alloc(), io::writer(&rt))?;
    let mut console = Console::new(rt.alloc(), writer)?;
    let mut args = [0u8; ARGUMENTS_MAX];
    console.run(&input, &mut args)?;
    console.writer.flush()
}
