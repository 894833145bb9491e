// How a store in memory finds a file and reads from it.
ghost use Rattle.std.specs.Prelude.{◌≡◌, ◌<◌, ◌≤◌, length, option_copied};
ghost use Rattle.tptp_base.specs.Store.{file_at, fill_count, GivesAt};

use crate::Text;

/// The bytes of the first file with this name.
pub fn find_file<'a>(files: &'a [(Text, Text)], name: &[u8]) -> Option<&'a [u8]>
    ensures { option_copied result ≡ file_at files.now name.now }
{
    for (stored, bytes) in files {
        if stored.as_slice() == name {
            return Some(bytes.as_slice());
        }
    }
    None
}

/// Reads from an offset on, at most so many bytes.
pub fn copy_from(file: &[u8], offset: u64, most: usize, into: &mut [u8]) -> usize
    requires room { 0 < length into.old }
    requires some { 0 < most }
    ensures bound { result ≤ length into.new }
    ensures count { result ≡ fill_count file.now offset (length into.new) most }
    ensures bytes { GivesAt file.now offset result into.new }
{
    if offset >= file.len() as u64 {
        return 0;
    }
    let rest = &file[offset as usize..];
    let count = rest.len().min(into.len()).min(most);
    into[..count].copy_from_slice(&rest[..count]);
    count
}
