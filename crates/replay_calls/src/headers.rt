// The steps that read, sum and write headers, and those of the builder. A header's arguments are B and its bytes 8 to 91, so they stand where they stand
// on a card, with B in place of the signature.
use crate::tape::Args;
use crate::told::Answer;
use builder::HeaderBuilder;
use header::{Header, Written};
use units::{Lba, Refusal};

fn block_size(args: &Args) -> u64 {
    args.u64(0)
}

fn header_of(args: &Args) -> Header {
    header::inner::header_at(&args.0, 0)
}

fn read(r: Result<Header, Refusal>) -> Answer {
    match r {
        Err(w) => Answer::refused(w),
        Ok(h) => Answer::accepted().with_header(1, h),
    }
}

pub fn read_primary(img: &[u8], args: &Args) -> Answer {
    read(header::read_primary_header(img, block_size(args)))
}

pub fn read_backup(img: &[u8], args: &Args) -> Answer {
    read(header::read_backup_header(img, block_size(args)))
}

pub fn find_backup(img: &[u8], args: &Args) -> Answer {
    match header::find_backup_lba(img.len(), block_size(args)) {
        Err(w) => Answer::refused(w),
        Ok(lba) => Answer::accepted().with_u64(1, lba.0),
    }
}

pub fn array_sum(img: &[u8], args: &Args) -> Answer {
    match header_of(args).partentry_checksum(img, block_size(args)) {
        Err(w) => Answer::refused(w),
        Ok(sum) => Answer::accepted().with_u32(1, sum),
    }
}

// What a written header answers: the bytes stored and the header, and the sum of the image in any case.
fn written(r: Result<Written, Refusal>, img: &[u8]) -> Answer {
    match r {
        Err(w) => Answer::refused(w).with_sum(1, img),
        Ok(done) => Answer::accepted()
            .with_u32(1, (done.count as u64 & 0xFFFF_FFFF) as u32)
            .with_header(5, done.header)
            .with_sum(89, img),
    }
}

pub fn write_primary(img: &mut [u8], args: &Args) -> Answer {
    let r = header_of(args).write_primary(img, block_size(args));
    written(r, img)
}

pub fn write_backup(img: &mut [u8], args: &Args) -> Answer {
    let r = header_of(args).write_backup(img, block_size(args));
    written(r, img)
}

fn built(r: Result<Header, Refusal>) -> Answer {
    match r {
        Err(w) => Answer::refused(w),
        Ok(h) => Answer::accepted().with_header(1, h),
    }
}

// Whether a setter is to be called: its bit of the arguments' last byte.
fn is_set(args: &Args, bit: u8) -> bool {
    args.0[57] & bit != 0
}

// The builder with those of its blocks that are set.
fn with_blocks(args: &Args, mut s: HeaderBuilder) -> HeaderBuilder {
    if is_set(args, 1) {
        s = s.with_backup_lba(Lba(args.u64(25)));
    }
    if is_set(args, 2) {
        s = s.with_first_usable(Lba(args.u64(33)));
    }
    if is_set(args, 4) {
        s = s.with_last_usable(Lba(args.u64(41)));
    }
    s
}

// The builder with the entries' count and size, where they are set.
fn with_entries(args: &Args, mut s: HeaderBuilder) -> HeaderBuilder {
    if is_set(args, 8) {
        s = s.with_num_parts(args.u32(49));
    }
    if is_set(args, 16) {
        s = s.with_part_size(args.u32(53));
    }
    s
}

pub fn build(args: &Args) -> Answer {
    let guid = units::inner::guid_at(&args.0, 9);
    let new = HeaderBuilder::new(guid).with_primary(args.0[8] != 0);
    let s = with_entries(args, with_blocks(args, new));
    built(s.build(block_size(args)))
}

pub fn build_from_header(args: &Args) -> Answer {
    built(HeaderBuilder::from_header(header_of(args)).build(block_size(args)))
}
