// The sentence that is told of a status. It is in pieces, so that it can be told where memory ran out.
ghost use Rattle.std.specs.List.{flat_map};
ghost use Rattle.pq_course.specs.Telling.{IsTold, line_of};
ghost use Rattle.pq_course.specs.TopCall.{writing_of};

use itoa::Buffer;
use pq_base::{Failed, Sink, write_all};
use status_text::{Sentence, Status, digits};

/// Tells the sentence of a status that isn't Done, and a line end. It takes no memory; where a write fails,
/// the rest is left out.
pub fn tell<E: Sink>(status: &Status, err: &mut E)
    ensures { IsTold (line_of status.now) (writing_of E.Sink err.old err.new) }
{
    if matches!(status, Status::Done) {
        return;
    }
    let sentence = Sentence::of(status);
    let mut first = Buffer::new();
    let mut second = Buffer::new();
    let pieces = [
        sentence.opening,
        digits(&mut first, sentence.first),
        sentence.middle,
        digits(&mut second, sentence.second),
        sentence.closing,
        "\n",
    ];
    tell_pieces(&pieces, err);
}

// Tells pieces, one after another, up to one that is not taken.
fn tell_pieces<E: Sink>(pieces: &[&str], err: &mut E)
    ensures { IsTold (flat_map (λ p. p.now) pieces.now) (writing_of E.Sink err.old err.new) }
{
    for piece in pieces {
        if let Err(Failed) = write_all(err, piece.as_bytes()) {
            return;
        }
    }
}
