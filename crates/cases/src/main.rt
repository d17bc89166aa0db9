// Runs the card calls on an image in memory, as the script on standard input says, and prints what each answers.
// The file `stdout` beside the folder `src` was written from documents 01 and 02; its check sums of whole images come from tests/example/make_card.py.
#![tactic(auto)]

mod bytes; // bytes.rt: bytes of an image, changed and looked at
mod commands; // commands.rt: the commands that print a line
mod every; // every.rt: one of them, of all calls
mod say; // say.rt: the words of an answer
mod script; // script.rt: the words of the script

use crate::script::{Command, Line};
use console::Output;
use std::io;
use std::io::{Read, Write};

// How many bytes of the script are read.
const MOST: usize = 65536;

// The byte that all bytes of a new image are.
const FRESH: u8 = 0xA5;

// The block size, and how many bytes of the space are the image.
#[derive(Clone, Copy)]
struct Image {
    b: u64,
    n: usize,
}

// A command that prints a line.
fn show(img: &mut [u8], b: u64, line: Line<'_>, out: &mut Output<impl Write>) -> io::Result<()> {
    write!(out, "{b}: ")?;
    out.write_all(line.0)?;
    match line.command() {
        Command::Write => commands::write(img, b, line, out),
        Command::Every => every::call(img, b, out),
        Command::Used => commands::used(img, b, out),
        Command::After => commands::after(img, b, line, out),
        Command::Get => commands::get(img, b, line, out),
        Command::Read => commands::read(img, b, line, out),
        Command::Digest => commands::digest(img, out),
        Command::Holds => commands::holds(img, b, line, out),
        Command::Lay | Command::Put | Command::NilPut | Command::BearingPut | Command::Clear =>
            commands::judge(img, b, line, out),
        _ => writeln!(out, ": unknown"),
    }
}

// A command of the image. Nothing is printed for a changed byte (flip), for sums made right (seal, table), for a comment and for an empty line.
fn act(img: &mut [u8], b: u64, line: Line<'_>, out: &mut Output<impl Write>) -> io::Result<()> {
    match line.command() {
        Command::Flip => bytes::flip(img, b, line),
        Command::Seal => bytes::seal(img, b, line),
        Command::Table => bytes::seal_table(img, b, line),
        Command::Nothing => {}
        _ => return show(img, b, line, out),
    }
    Ok(())
}

// A new image: how many bytes it has, and its block size.
fn new_image(space: &mut [u8], line: Line<'_>, out: &mut Output<impl Write>) -> io::Result<Image> {
    out.write_all(line.0)?;
    writeln!(out)?;
    space.fill(FRESH);
    Ok(Image {
        b: line.number(1),
        n: line.count(0),
    })
}

// One line of the script. No command is carried out on an image that is longer than the space.
fn step(
    space: &mut [u8],
    image: Image,
    line: Line<'_>,
    out: &mut Output<impl Write>,
) -> io::Result<Image> {
    if line.command() == Command::Image {
        return new_image(space, line, out);
    }
    if image.n <= space.len() {
        act(&mut space[..image.n], image.b, line, out)?;
    }
    Ok(image)
}

// All lines of the script. Of one that asks for nothing there is nothing to do.
fn play(script: &[u8], out: &mut Output<impl Write>) -> io::Result<()> {
    let mut space = [FRESH; 57444];
    let mut image = Image { b: 512, n: 0 };
    for line in script.split(|letter| *letter == b'\n') {
        let line = Line(line);
        if line.command() != Command::Nothing {
            image = step(&mut space, image, line, out)?;
        }
    }
    Ok(())
}

// Reads the script to its end before any line of it is carried out.
fn run(input: &mut impl Read, out: &mut Output<impl Write>) -> io::Result<()> {
    let mut script = [0; MOST];
    let n = console::read_input(input, &mut script)?;
    play(&script[..n], out)
}

fn main(rt: HostRuntime) {
    let mut out = Output::new(rt.stdout());
    let ended = run(&mut rt.stdin(), &mut out);
    if let Some(failure) = out.failure(&ended) {
        console::complain_of(&mut rt.stderr(), "cases", failure);
    }
}
