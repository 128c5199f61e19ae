// The least of the words of lanes, and the first lane that has it.
ghost use Rattle.std.specs.Prelude.{◌≡◌, ◌<◌, ◌≤◌, ◌==◌, length, min, position, unwrap_or, IfSome};
ghost use Rattle.std.specs.List.{fold};
ghost use Rattle.chain_core.specs.Core.{least, least_lane};

/// The least of some words, or 0.
pub fn least(words: &[u64]) -> u64
    ensures { result ≡ least words.now }
{
    match words.split_first() {
        Some((first, others)) => least_from(*first, others),
        None => 0,
    }
}

/// The first lane that has the least word, or 0.
pub fn least_lane(words: &[u64]) -> usize
    ensures value { result ≡ least_lane words.now }
    ensures within { result ≤ length words.now }
{
    first_lane(words, least(words))
}

// The least of a word and others.
fn least_from(first: u64, others: &[u64]) -> u64
    ensures { result ≡ fold min first others.now }
{
    let mut least = first;
    for word in others {
        least = least.min(*word);
    }
    least
}

// The first lane that has a word, or 0.
fn first_lane(words: &[u64], least: u64) -> usize
    ensures value { result ≡ unwrap_or (position (λ w. w == least) words.now) 0 }
    ensures within { result ≤ length words.now }
{
    match lane_of(words, least) {
        Some(lane) => lane,
        None => 0,
    }
}

fn lane_of(words: &[u64], least: u64) -> Option<usize>
    ensures value { result ≡ position (λ w. w == least) words.now }
    ensures within { IfSome result (λ lane. lane < length words.now) }
{
    words.iter().position(|word| *word == least)
}
