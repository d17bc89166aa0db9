// What each call answers to its arguments.
use crate::kinds::Kind;
use crate::tape::Args;
use crate::told::Answer;
use crate::{entries, headers, mbrs};

pub fn answer(kind: Kind, img: &mut [u8], args: &Args) -> Answer {
    match kind {
        Kind::ReadPrimary => headers::read_primary(img, args),
        Kind::ReadBackup => headers::read_backup(img, args),
        Kind::FindBackup => headers::find_backup(img, args),
        Kind::ArraySum => headers::array_sum(img, args),
        Kind::WritePrimary => headers::write_primary(img, args),
        Kind::WriteBackup => headers::write_backup(img, args),
        Kind::Build => headers::build(args),
        Kind::BuildFromHeader => headers::build_from_header(args),
        Kind::ReadArray => entries::read_array(img, args),
        Kind::WriteEntry => entries::write_entry(img, args),
        Kind::WriteZeros => entries::write_zeros(img, args),
        Kind::Lengths => entries::lengths(args),
        Kind::EntryBytes => entries::entry_bytes(args),
        Kind::MbrFromBytes => mbrs::from_bytes(img, args),
        Kind::MbrFromImage => mbrs::from_image(img, args),
        Kind::MbrOverwrite => mbrs::overwrite(img, args),
        Kind::MbrUpdate => mbrs::update(img, args),
        Kind::MbrRecord => mbrs::record(args),
    }
}
