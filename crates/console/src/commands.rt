// The calls of a controller that write an output, and their answers.
use crate::rack::Controller;
use lines::limits::OUT_FILL;
use lines::print::Output;
use std::alloc::AllocError;
use std::io;
use std::io::Write;

// Lends an output of a length.
pub fn lend(out: &mut Vec<u8>, length: usize) -> Result<&mut [u8], AllocError> {
    out.clear();
    out.resize(length, OUT_FILL)?;
    Ok(out.as_mut_slice())
}

// Own add.
pub fn add<W: Write>(
    writer: &mut W,
    controller: &mut Controller,
    label: &[u8],
    context: &[u8],
    out: &mut [u8],
) -> io::Result<()> {
    let state = &mut controller.state;
    let store = controller.store.as_mut_slice();
    let mut written = usize::MAX;
    let answer = capi::ptl_own_add(state, store, label, context, out, &mut written);
    let output = Output {
        bytes: out,
        written,
    };
    write!(writer, " {answer} {output}")
}

pub fn remove<W: Write>(
    writer: &mut W,
    controller: &mut Controller,
    context: &[u8],
    out: &mut [u8],
) -> io::Result<()> {
    let mut written = usize::MAX;
    let answer = capi::ptl_own_remove(
        &mut controller.state,
        &controller.store,
        context,
        out,
        &mut written,
    );
    let output = Output {
        bytes: out,
        written,
    };
    write!(writer, " {answer} {output}")
}

pub fn list<W: Write>(writer: &mut W, controller: &Controller, out: &mut [u8]) -> io::Result<()> {
    let mut written = usize::MAX;
    let mut labels = usize::MAX;
    let answer = capi::ptl_list(
        &controller.state,
        &controller.store,
        out,
        &mut written,
        &mut labels,
    );
    let output = Output {
        bytes: out,
        written,
    };
    write!(writer, " {answer} {labels} {output}")
}

pub fn image<W: Write>(writer: &mut W, controller: &Controller, out: &mut [u8]) -> io::Result<()> {
    let mut written = usize::MAX;
    let answer = capi::ptl_write_image(&controller.state, &controller.store, out, &mut written);
    let output = Output {
        bytes: out,
        written,
    };
    write!(writer, " {answer} {output}")
}

// One listing of two controllers.
pub fn merge<W: Write>(
    writer: &mut W,
    first: &Controller,
    second: &Controller,
    out: &mut [u8],
) -> io::Result<()> {
    let mut written = usize::MAX;
    let mut labels = usize::MAX;
    let answer = capi::ptl_merge(
        &first.state,
        &first.store,
        &second.state,
        &second.store,
        out,
        &mut written,
        &mut labels,
    );
    let output = Output {
        bytes: out,
        written,
    };
    write!(writer, " {answer} {labels} {output}")
}

pub fn page<W: Write>(
    writer: &mut W,
    controller: &Controller,
    start: &[u8],
    out: &mut [u8],
) -> io::Result<()> {
    let mut written = usize::MAX;
    let mut labels = usize::MAX;
    let mut more = true;
    let answer = capi::ptl_page(
        &controller.state,
        &controller.store,
        start,
        out,
        &mut written,
        &mut labels,
        &mut more,
    );
    // A refused page says neither that more follow nor that it has ended.
    let follows = match (more, answer) {
        (true, _) => "more",
        (false, 0) => "ended",
        (false, _) => "-",
    };
    let output = Output {
        bytes: out,
        written,
    };
    write!(writer, " {answer} {labels} {follows} {output}")
}
