// The lister of free ground: reads an image of at most 65,536 bytes from standard input, as a card with blocks of 512 bytes, and prints its free runs.
// Document 02, 1/13, in the lister's form. A longer input prints `too long`, a refused one `refused` and its number.
// Input that cannot be read and output that cannot be written are said on standard error, and are no verdict.
#![tactic(auto)]

ghost use Rattle.std.specs.Prelude.{ℕ, ◌+◌, ◌^◌, ◌≤◌, ◌<◌, length, get_or};

use console::Output;
use std::io;
use std::io::{Read, Write};

const USAGE: &str =
    "usage: free_ground < IMAGE (blocks of 512 bytes, 65,536 bytes at most; the exit status is always 0, so read what is printed)\n";

// How many bytes the longest image has.
const LONGEST: usize = 65536;

// A run's line: its first and last block, and how many blocks it has.
fn print_run(start: u64, blocks: u64, out: &mut Output<impl Write>) -> io::Result<()>
    requires { (0 < blocks) × (start + blocks < 2 ^ 64) }
{
    let last = start + blocks - 1;
    writeln!(out, "{start} {last} {blocks}")
}

// The lines of the n runs in both rows.
fn print_runs(
    starts: &[u64],
    lengths: &[u64],
    n: usize,
    out: &mut Output<impl Write>,
) -> io::Result<()>
    requires n_in_bounds { (n ≤ length starts.now) × (n ≤ length lengths.now) }
    requires by_index { (k : ℕ) → k < n → (0 < get_or lengths.now k 0) × (get_or starts.now k 0 + get_or lengths.now k 0 < 2 ^ 64) }
{
    for (start, blocks) in starts[..n].iter().zip(&lengths[..n]) {
        print_run(*start, *blocks, out)?;
    }
    Ok(())
}

// The card's runs, in rows of 129 places, which always do.
fn list(img: &[u8], out: &mut Output<impl Write>) -> io::Result<()> {
    let mut starts: [u64; 129] = [0; 129];
    let mut lengths: [u64; 129] = [0; 129];
    match ground::free_runs(img, 512, &mut starts, &mut lengths) {
        Err(w) => writeln!(out, "refused {}", w.what.number()),
        Ok(n) => {
            writeln!(out, "first last blocks")?;
            print_runs(&starts, &lengths, n as usize, out)?;
            writeln!(out, "runs {n}")
        }
    }
}

// Reads the image to its end before anything is printed.
fn run(input: &mut impl Read, out: &mut Output<impl Write>) -> io::Result<()> {
    let mut space = [0; LONGEST + 1];
    let n = console::read_input(input, &mut space)?;
    if n > LONGEST {
        return writeln!(out, "too long");
    }
    list(&space[..n], out)
}

// The exit status is always 0, as the usage line says.
fn main(rt: HostRuntime) {
    let mut out = Output::new(rt.stdout());
    let mut errors = rt.stderr();
    let ended = if console::no_arguments(&rt, USAGE.as_bytes(), &mut out, &mut errors) {
        run(&mut rt.stdin(), &mut out)
    } else {
        Ok(())
    };
    if let Some(failure) = out.failure(&ended) {
        console::complain_of(&mut errors, "free_ground", failure);
    }
}
