// One load of each lane's word.
ghost use Rattle.std.specs.Prelude.{◌≡◌, ◌≤◌, length};
ghost use Rattle.progress_words.specs.Words.{IsReaderOf, ReaderKnows, lanes_of, reader_of};
ghost use Rattle.query_session.specs.Least.{IsLeast};
ghost use Rattle.query_session.specs.Session.{LoadedOnce, with_reads};

use interval_ledger::Ledger;
use progress_words::{ReadPass, Words};

// Loads each lane's word once. Gives the least word, and the first lane that has it.
pub(crate) fn load_all(words: &Words<Ledger>, pass: &mut ReadPass<Ledger>, lanes: u32) -> (u32, u64)
    requires mine { IsReaderOf words.now pass.old }
    requires some { 1 ≤ lanes }
    requires lanes { lanes ≡ lanes_of words.now }
    ensures view { ReaderKnows pass.old pass.new (with_reads (reader_of pass.new)) }
    ensures loaded { LoadedOnce lanes (reader_of pass.old) (reader_of pass.new) }
    ensures least { IsLeast lanes (reader_of pass.new).words_read result.0 result.1 }
{
    let mut lane = 0;
    let mut word = words.load(pass, 0);
    for k in 1..lanes {
        let found = words.load(pass, k);
        if found < word {
            lane = k;
            word = found;
        }
    }
    (lane, word)
}

// Loads each lane's word once, into the slice.
pub(crate) fn load_into(words: &Words<Ledger>, pass: &mut ReadPass<Ledger>, into: &mut [u64])
    requires mine { IsReaderOf words.now pass.old }
    requires lanes { length into.old ≡ length (reader_of pass.old).words_read }
    ensures view { ReaderKnows pass.old pass.new (with_reads (reader_of pass.new)) }
    ensures loaded { LoadedOnce (length into.old) (reader_of pass.old) (reader_of pass.new) }
    ensures words { into.new ≡ (reader_of pass.new).words_read }
{
    for lane in 0..into.len() {
        into[lane] = words.load(pass, lane as u32);
    }
}
