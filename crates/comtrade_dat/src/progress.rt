// How far a dat is read that comes in pieces.
ghost use Rattle.std.specs.Prelude.{◌≡◌, ◌≢◌, ◌+◌, ◌^◌, ◌<◌, ◌≤◌, [], IsErrOf, OnErr, OnOk, Some, length};
ghost use Rattle.comtrade_dat.specs.Channel.{IsLayout, judged_count};
ghost use Rattle.comtrade_dat.specs.Progress.{EndsAll, GoesOnWith, IsFedOn, IsGoing, IsInShape, WasFed};
ghost use Rattle.comtrade_dat.specs.declared.dat_fault.DatFault.TheVariants as fault;
ghost use Rattle.pq_words.specs.declared.limits.TheConstants.{MOST_SAMPLES};

use crate::dat_fault::DatFault;
use crate::decoded::Decoded;
use crate::taking::Taking;
use pq_base::OutOfMemory;

// The whole records, the bytes of the record that is cut off, how many bytes were fed, and the first fault.
#[derive(Drop)]
pub(crate) struct Progress {
    pub(crate) decoded: Decoded,
    pub(crate) cut: Vec<u8>,
    pub(crate) bytes: u64,
    pub(crate) fault: Option<DatFault>,
}

impl Progress {
    // Takes the next piece. Of all records there are n. After a fault nothing is decoded.
    pub(crate) fn feed<T: Taking>(
        &mut self,
        taking: &T,
        size: usize,
        positions: &[u32],
        n: usize,
        piece: &[u8],
    ) -> Result<(), OutOfMemory>
        requires ready { T.is_ready taking.now }
        requires layout { IsLayout size positions.now }
        requires few { n ≤ MOST_SAMPLES }
        requires fed { WasFed size positions.now n self.old }
        ensures fed { IsFedOn size positions.now n self.old piece.now self.new }
        ensures ok { OnOk result (self.new.fault ≢ Some fault.OutOfMemory) }
        ensures told { OnErr result (self.new.fault ≡ Some fault.OutOfMemory) }
    {
        if let Some(fault) = self.fault {
            return want_of_memory(fault);
        }
        match self.feed_good(taking, size, positions, n, piece) {
            Ok(()) => Ok(()),
            Err(fault) => {
                self.fault = Some(fault);
                want_of_memory(fault)
            }
        }
    }

    // The same after good bytes. As many bytes as no u64 counts are more than memory holds.
    fn feed_good<T: Taking>(
        &mut self,
        taking: &T,
        size: usize,
        positions: &[u32],
        n: usize,
        piece: &[u8],
    ) -> Result<(), DatFault>
        requires ready { T.is_ready taking.now }
        requires layout { IsLayout size positions.now }
        requires few { n ≤ MOST_SAMPLES }
        requires going { IsGoing size positions.now n self.old }
        ensures good { GoesOnWith size positions.now n self.old piece.now self.new result }
        ensures bytes { OnOk result (self.new.bytes ≡ self.old.bytes + length piece.now) }
        ensures fault { self.new.fault ≡ self.old.fault }
    {
        let Some(bytes) = self.bytes.checked_add(piece.len() as u64) else {
            return Err(DatFault::OutOfMemory);
        };
        self.bytes = bytes;
        self.decode(taking, size, positions, n, piece)
    }

    // Decodes the next piece: first the record that was cut off, then those that follow it.
    fn decode<T: Taking>(
        &mut self,
        taking: &T,
        size: usize,
        positions: &[u32],
        n: usize,
        piece: &[u8],
    ) -> Result<(), DatFault>
        requires ready { T.is_ready taking.now }
        requires layout { IsLayout size positions.now }
        requires few { n ≤ MOST_SAMPLES }
        requires going { IsGoing size positions.now n self.old }
        ensures good { GoesOnWith size positions.now n self.old piece.now self.new result }
        ensures bytes { self.new.bytes ≡ self.old.bytes }
        ensures fault { self.new.fault ≡ self.old.fault }
    {
        if self.cut.is_empty() {
            return self.decode_run(taking, size, positions, n, piece);
        }
        let missing = size - self.cut.len();
        if piece.len() < missing {
            self.cut.extend_from_slice(piece)?;
            return Ok(());
        }
        self.decode_cut(taking, size, positions, n, &piece[..missing])?;
        self.decode_run(taking, size, positions, n, &piece[missing..])
    }

    // Decodes the record that was cut off, by the bytes that it lacked.
    fn decode_cut<T: Taking>(
        &mut self,
        taking: &T,
        size: usize,
        positions: &[u32],
        n: usize,
        lacking: &[u8],
    ) -> Result<(), DatFault>
        requires ready { T.is_ready taking.now }
        requires layout { IsLayout size positions.now }
        requires few { n ≤ MOST_SAMPLES }
        requires shape { IsInShape size positions.now n self.old }
        requires whole { length self.old.cut.items + length lacking.now ≡ size }
        requires some { 0 < length self.old.cut.items }
        ensures good { GoesOnWith size positions.now n self.old lacking.now self.new result }
        ensures bytes { self.new.bytes ≡ self.old.bytes }
        ensures fault { self.new.fault ≡ self.old.fault }
        ensures uncut { OnOk result (self.new.cut.items ≡ []) }
    {
        self.cut.extend_from_slice(lacking)?;
        self.decoded
            .take_run(taking, size, positions, n, self.cut.as_slice(), 1)?;
        self.cut.clear();
        Ok(())
    }

    // Decodes the whole records of a run, and keeps the bytes of one that is cut off.
    fn decode_run<T: Taking>(
        &mut self,
        taking: &T,
        size: usize,
        positions: &[u32],
        n: usize,
        run: &[u8],
    ) -> Result<(), DatFault>
        requires ready { T.is_ready taking.now }
        requires layout { IsLayout size positions.now }
        requires few { n ≤ MOST_SAMPLES }
        requires shape { IsInShape size positions.now n self.old }
        requires uncut { self.old.cut.items ≡ [] }
        ensures good { GoesOnWith size positions.now n self.old run.now self.new result }
        ensures bytes { self.new.bytes ≡ self.old.bytes }
        ensures fault { self.new.fault ≡ self.old.fault }
    {
        let to_come = n - self.decoded.next.index;
        if to_come == 0 {
            return Ok(());
        }
        let count = to_come.min(run.len() / size);
        self.decoded
            .take_run(taking, size, positions, n, run, count)?;
        if count < to_come {
            self.cut.extend_from_slice(&run[size * count..])?;
        }
        Ok(())
    }

    // What is decoded where nothing more comes: n records, which are all.
    pub(crate) fn end(self, size: usize, n: usize) -> Result<Decoded, DatFault>
        requires some { 0 < size }
        requires small { size < 2 ^ 16 }
        requires few { n ≤ MOST_SAMPLES }
        ensures value { EndsAll size n self result }
        ensures memory { self.fault ≡ Some fault.OutOfMemory → IsErrOf result fault.OutOfMemory }
    {
        if let Some(fault) = self.fault {
            return Err(fault);
        }
        judge_end(size, self.decoded.next.index, self.bytes, n)?;
        Ok(self.decoded)
    }
}

// A fault is kept until the end, but for want of memory, which is told at once.
fn want_of_memory(found: DatFault) -> Result<(), OutOfMemory>
    ensures ok { OnOk result (found ≢ fault.OutOfMemory) }
    ensures err { OnErr result (found ≡ fault.OutOfMemory) }
{
    match found {
        DatFault::OutOfMemory => Err(OutOfMemory),
        _ => Ok(()),
    }
}

// After so many good records, of so many bytes: all are there, and nothing is left.
fn judge_end(size: usize, count: usize, bytes: u64, n: usize) -> Result<(), DatFault>
    requires small { size < 2 ^ 16 }
    requires few { n ≤ MOST_SAMPLES }
    ensures { result ≡ judged_count size count bytes n }
{
    if count < n {
        return Err(DatFault::Short {
            at: count as u64 + 1,
        });
    }
    let left = bytes.saturating_sub((size * n) as u64);
    if left > 0 {
        return Err(DatFault::Long { bytes: left });
    }
    Ok(())
}
