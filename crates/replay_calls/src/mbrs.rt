// The steps of the protective MBR.
use crate::tape::Args;
use crate::told::Answer;
use mbr::{PartRecord, ProtectiveMbr};
use units::Refusal;

fn read(r: Result<ProtectiveMbr, Refusal>) -> Answer {
    match r {
        Err(w) => Answer::refused(w),
        Ok(m) => Answer::accepted().with_sum(1, &m.to_bytes()),
    }
}

pub fn from_bytes(img: &[u8], args: &Args) -> Answer {
    read(ProtectiveMbr::from_bytes(img, args.u64(0)))
}

pub fn from_image(img: &[u8], args: &Args) -> Answer {
    read(ProtectiveMbr::from_image(img, args.u64(0)))
}

pub fn overwrite(img: &mut [u8], args: &Args) -> Answer {
    let r = ProtectiveMbr::with_lb_size(args.u32(0)).overwrite_lba0(img);
    Answer::stored(r, img)
}

pub fn update(img: &mut [u8], args: &Args) -> Answer {
    let r = ProtectiveMbr::with_lb_size(args.u32(0)).update_conservative(img);
    Answer::stored(r, img)
}

// A record in as many bytes as the first argument says.
pub fn record(args: &Args) -> Answer {
    let n = usize::from(args.0[0]);
    match PartRecord::from_bytes(&args.0[1..1 + n]) {
        Err(w) => Answer::refused(w),
        Ok(p) => Answer::accepted().with_bytes(1, &p.to_bytes()),
    }
}
