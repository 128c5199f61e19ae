// The dat that is handed to its reader as it comes.
ghost use Rattle.std.specs.Prelude.{◌≡◌, ◌<◌, ◌≤◌, [], ◌∷◌, length, IfSome, IsErrOf, OnOk};
ghost use Rattle.pq_base.specs.Causes.{CountsOnce, Rose};
ghost use Rattle.pq_base.specs.Outside.{HasAsked, IsMissing, IsOver};
ghost use Rattle.pq_base.specs.ReadAll.{is_failed};
ghost use Rattle.pq_course.specs.Feeding.{FeedsFile, FeedsRest, IsDatFed};
ghost use Rattle.pq_course.specs.TopCall.{reading_of};

use crate::input_file::{InputFile, limit_of, refusal};
use comtrade_dat::{DatReader, Taking};
use pq_base::{ReadAll, Shelf};
use status_text::Status;
use std::alloc::Global;

/// Feeds a reader with the dat of this name, piece by piece, or gives the status of a call that can't have
/// it. The shelf is asked for it once, and all of it is read, whatever the reader finds in it.
pub fn feed_dat<T: Taking, K: Shelf>(
    alloc: Global,
    taking: &T,
    shelf: &mut K,
    name: &str,
    reader: &mut DatReader<'_>,
) -> Result<(), Status>
    requires { T.is_ready taking.now }
    ensures value { IsDatFed name.now reader.old reader.new (reading_of K.Shelf shelf.old shelf.new)
        result }
    ensures files { K.files shelf.new ≡ K.files shelf.old }
{
    match vec![in alloc; 0u8; taking.bytes_at_once()] {
        Ok(mut piece) => feed_by(taking, shelf, name, reader, piece.as_mut_slice()),
        Err(_) => Err(Status::OutOfMemory),
    }
}

// The same, where the dat is read into a piece again and again.
fn feed_by<T: Taking, K: Shelf>(
    taking: &T,
    shelf: &mut K,
    name: &str,
    reader: &mut DatReader<'_>,
    piece: &mut [u8],
) -> Result<(), Status>
    requires ready { T.is_ready taking.now }
    requires room { 0 < length piece.old }
    ensures value { IsDatFed name.now reader.old reader.new (reading_of K.Shelf shelf.old shelf.new)
        result }
    ensures files { K.files shelf.new ≡ K.files shelf.old }
{
    match feed_all(taking, shelf, name, limit_of(InputFile::Dat), reader, piece) {
        Ok(()) => Ok(()),
        Err(why) => Err(refusal(InputFile::Dat, shelf, why)),
    }
}

// Feeds a reader with the file of this name, if it has at most `limit` bytes.
fn feed_all<T: Taking, K: Shelf>(
    taking: &T,
    shelf: &mut K,
    name: &str,
    limit: u64,
    reader: &mut DatReader<'_>,
    piece: &mut [u8],
) -> Result<(), ReadAll>
    requires ready { T.is_ready taking.now }
    requires room { 0 < length piece.old }
    ensures files { K.files shelf.new ≡ K.files shelf.old }
    ensures asked { HasAsked (K.asked shelf.old) (name.now ∷ []) (K.asked shelf.new) }
    ensures fed { OnOk result (FeedsFile (K.files shelf.old) name.now limit reader.old reader.new) }
    ensures missing { IsErrOf result ReadAll.Missing → IsMissing (K.files shelf.old) name.now }
    ensures over { IsErrOf result ReadAll.Over → IsOver (K.files shelf.old) name.now limit }
    ensures failed { IsErrOf result ReadAll.Failed → Rose (K.faults shelf.old) (K.faults shelf.new) }
    ensures later { K.faults shelf.old ≤ K.faults shelf.new }
    ensures counted { CountsOnce K.counts_each (K.faults shelf.old) (K.faults shelf.new) (is_failed result) }
{
    if !shelf.open(name)? {
        return Err(ReadAll::Missing);
    }
    feed_rest(taking, shelf, limit, reader, piece)
}

// Feeds a reader with what is left of the opened file.
fn feed_rest<T: Taking, K: Shelf>(
    taking: &T,
    shelf: &mut K,
    limit: u64,
    reader: &mut DatReader<'_>,
    piece: &mut [u8],
) -> Result<(), ReadAll>
    requires ready { T.is_ready taking.now }
    requires room { 0 < length piece.old }
    ensures files { K.files shelf.new ≡ K.files shelf.old }
    ensures asked { K.asked shelf.new ≡ K.asked shelf.old }
    ensures fed { OnOk result (FeedsRest (K.rest shelf.old) limit reader.old reader.new) }
    ensures missing { ¬ IsErrOf result ReadAll.Missing }
    ensures over { IsErrOf result ReadAll.Over → IfSome (K.rest shelf.old) (λ bs. limit < length bs) }
    ensures failed { IsErrOf result ReadAll.Failed → Rose (K.faults shelf.old) (K.faults shelf.new) }
    ensures later { K.faults shelf.old ≤ K.faults shelf.new }
    ensures counted { CountsOnce K.counts_each (K.faults shelf.old) (K.faults shelf.new) (is_failed result) }
{
    let mut left = limit;
    'pieces: loop {
        let count = shelf.read(piece)?;
        if count == 0 {
            return Ok(());
        }
        if count as u64 > left {
            return Err(ReadAll::Over);
        }
        left -= count as u64;
        if reader.feed(taking, &piece[..count]).is_err() {
            return Err(ReadAll::OutOfMemory);
        }
    }
}
