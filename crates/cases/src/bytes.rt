// Bytes of an image, changed and looked at by plain loads and stores: what the card calls are to find, or to leave alone.
use crate::script::Line;
use units::{BytePlace, Lba, Number};

// The place n bytes after a place, or the place itself if that passes 64 bits, which it never does here.
fn after(at: BytePlace, n: usize) -> BytePlace {
    match at.after(n) {
        Ok(p) => p,
        Err(_w) => at,
    }
}

// The place n bytes after a block's start. For another block size than the two it is 0, which the check does not read.
pub fn place(block: Lba, b: u64, n: usize) -> BytePlace {
    match block.place(b) {
        Ok(p) => after(p, n),
        Err(_w) => BytePlace(0),
    }
}

// Changes bits of a byte of a block: the bits, the byte, the block.
pub fn flip(img: &mut [u8], b: u64, line: Line<'_>) {
    let at = place(line.block(2), b, line.count(1));
    if let Some(byte) = img.get_mut(at.0) {
        *byte ^= line.byte(0);
    }
}

// The n bytes at a place, if they are all there.
fn part(img: &[u8], at: BytePlace, n: usize) -> Option<&[u8]> {
    img.get(at.0..)?.get(..n)
}

// The sum of n bytes, or 0 if they are not all there.
fn sum_at(img: &[u8], at: BytePlace, n: usize) -> u32 {
    part(img, at, n).map_or(0, crc32::crc32)
}

fn store(img: &mut [u8], at: BytePlace, sum: u32) {
    let _ = units::store_number(img, at, Number::Four(sum));
}

// Makes the sum of the header in a block right.
pub fn seal(img: &mut [u8], b: u64, line: Line<'_>) {
    let head = place(line.block(0), b, 0);
    store(img, after(head, 16), 0);
    let sum = sum_at(img, head, 92);
    store(img, after(head, 16), sum);
}

// Makes both sums of a table right: the header's block, the array's first block.
pub fn seal_table(img: &mut [u8], b: u64, line: Line<'_>) {
    let array = place(line.block(1), b, 0);
    let sum = sum_at(img, array, 16384);
    store(img, place(line.block(0), b, 88), sum);
    seal(img, b, line);
}

// Whether n bytes from a place on are all there and all the same.
pub fn filled(img: &[u8], from: BytePlace, n: usize, byte: u8) -> bool {
    match part(img, from, n) {
        Some(bytes) => bytes.iter().all(|held| *held == byte),
        None => false,
    }
}
