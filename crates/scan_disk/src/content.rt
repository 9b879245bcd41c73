//! The form of a file: a magic, the bytes of its segments, a footer, the footer's SHA-256, its length, and the magic again.
ghost use Rattle.std.specs.Prelude.{◌≡◌, ◌+◌, ◌-◌, ◌≤◌, Some, Ok, IfSome, IfOk, OnOk, length, false};
ghost use Rattle.std.specs.Str.{bytes_eq};
ghost use Rattle.sha2.specs.Sha256.{sha256};
ghost use Rattle.scan_disk.specs.BytesAt.{part_at};
ghost use Rattle.scan_disk.specs.Given.{IsGiven};
ghost use Rattle.scan_disk.specs.Contents.{word_at, marks_of, footer_start, with_places, footer_from, content_of};
ghost use Rattle.scan_disk.specs.Footers.{footer_of};
ghost use Rattle.scan_disk.specs.Segments.{or_place};

use crate::bytes_at::{BytesAt, ReadFault};
use crate::fault::DiskFault;
use crate::footer::{Footer, read_footer_bytes};
use scan_manifest::ParseFault;
use scan_segments::ByteBuffer;
use sha2::{Digest, Sha256};
use std::alloc::Global;

/// What a file begins and ends with.
const MAGIC: [u8; 8] = *b"SIBLAG02";

/// How many bytes the magics, the footer's SHA-256 and its length take.
const FRAME: u64 = 56;

/// How many of these stand behind the footer.
const BEHIND: u64 = 48;

fn read_size<F: BytesAt>(file: &F) -> Result<u64, DiskFault>
    ensures { IsGiven (F.bytes file.now) (F.can_fail file.now) (λ bytes. Ok (length bytes)) result }
{
    match file.size() {
        Ok(size) => Ok(size),
        Err(ReadFault::Outside) => Err(DiskFault::Short),
        Err(ReadFault::Failed) => Err(DiskFault::Failed),
    }
}

/// Eight bytes of a file that has them.
fn read_word<F: BytesAt>(file: &F, offset: u64) -> Result<[u8; 8], DiskFault>
    requires { IfSome (F.bytes file.now) (λ bytes. offset + 8 ≤ length bytes) }
    ensures { IsGiven (F.bytes file.now) (F.can_fail file.now) (λ bytes. Ok (word_at offset bytes)) result }
{
    let mut word = [0u8; 8];
    match file.fill(offset, &mut word) {
        Ok(()) => Ok(word),
        Err(ReadFault::Outside) => Err(DiskFault::Short),
        Err(ReadFault::Failed) => Err(DiskFault::Failed),
    }
}

/// Refuses a file of this size that has not its magics.
fn check_marks<F: BytesAt>(file: &F, size: u64) -> Result<(), DiskFault>
    requires { IfSome (F.bytes file.now) (λ bytes. length bytes ≡ size) }
    ensures given { IsGiven (F.bytes file.now) (F.can_fail file.now) marks_of result }
    ensures framed { OnOk result (56 ≤ size) }
{
    if size < FRAME {
        return Err(DiskFault::Short);
    }
    let first = read_word(file, 0)?;
    let last = read_word(file, size - 8)?;
    if first != MAGIC {
        return Err(DiskFault::Magic);
    }
    if last != MAGIC {
        return Err(DiskFault::Magic);
    }
    Ok(())
}

/// Where the footer of a file of this size begins.
fn read_start<F: BytesAt>(file: &F, size: u64) -> Result<u64, DiskFault>
    requires size { IfSome (F.bytes file.now) (λ bytes. length bytes ≡ size) }
    requires framed { 56 ≤ size }
    ensures given { IsGiven (F.bytes file.now) (F.can_fail file.now) footer_start result }
    ensures before { IfOk result (λ start. start ≤ size - 48) }
{
    let length = u64::from_le_bytes(read_word(file, size - 16)?);
    if length > size - FRAME {
        return Err(DiskFault::FooterLength);
    }
    Ok(size - BEHIND - length)
}

/// So many bytes from a place on, in one read, into the buffer that is given.
pub(crate) fn read_part<F: BytesAt>(
    alloc: Global,
    file: &F,
    offset: u64,
    count: u64,
) -> Result<ByteBuffer, DiskFault>
    ensures given { IsGiven (F.bytes file.now) (F.can_fail file.now)
        (λ bytes. or_place (part_at offset count bytes)) result }
    ensures size { IfOk result (λ bytes. length bytes ≡ count) }
{
    let Ok(size) = usize::try_from(count) else {
        return Err(DiskFault::NoMemory);
    };
    let mut bytes = vec![in alloc; 0u8; size]?;
    match file.fill(offset, bytes.as_mut_slice()) {
        Ok(()) => Ok(ByteBuffer::new(alloc, bytes)?),
        Err(ReadFault::Outside) => Err(DiskFault::Place),
        Err(ReadFault::Failed) => Err(DiskFault::Failed),
    }
}

/// Whether this is the SHA-256 of a text.
fn is_digest(digest: &[u8], text: &[u8]) -> bool
    ensures { result ≡ bytes_eq (sha256 text.now) digest.now }
{
    Sha256::digest(text).as_slice() == digest
}

/// What the text of a footer says that begins here.
fn footer_text(alloc: Global, text: &[u8], start: u64) -> Result<Footer, DiskFault>
    ensures { IsGiven (Some text.now) false (λ bytes. with_places start (footer_of bytes)) result }
{
    match read_footer_bytes(alloc, text) {
        Ok(footer) => {
            if footer.places.are_within(start) {
                Ok(footer)
            } else {
                Err(DiskFault::Place)
            }
        }
        Err(ParseFault::Bad) => Err(DiskFault::Footer),
        Err(ParseFault::NoMemory) => Err(DiskFault::NoMemory),
    }
}

/// What a footer says that begins here, and has its SHA-256 behind it.
fn footer_from(alloc: Global, bytes: &[u8], start: u64) -> Result<Footer, DiskFault>
    requires { 32 ≤ length bytes.now }
    ensures { IsGiven (Some bytes.now) false (footer_from start) result }
{
    let (text, digest) = bytes.split_at(bytes.len() - 32);
    if !is_digest(digest, text) {
        return Err(DiskFault::FooterDigest);
    }
    footer_text(alloc, text, start)
}

/// The footer of a file. Its SHA-256 is looked at before it is read, whatever is asked for its segments.
///
/// # Errors
/// `Short`, `Magic`, `FooterLength`, `FooterDigest`, `Footer` and `Place`, the first that holds of the file; `Failed`
/// where a read failed; and `NoMemory`.
pub fn read_footer<F: BytesAt>(alloc: Global, file: &F) -> Result<Footer, DiskFault>
    ensures { IsGiven (F.bytes file.now) (F.can_fail file.now) content_of result }
{
    let size = read_size(file)?;
    check_marks(file, size)?;
    let start = read_start(file, size)?;
    let bytes = read_part(alloc, file, start, size - 16 - start)?;
    footer_from(alloc, bytes.as_slice(), start)
}
