// Blanks of a text.
ghost use Rattle.std.specs.Prelude.{◌≡◌, ◌≤◌, length};
ghost use Rattle.std.specs.List.{prefix_len, suffix_len};
ghost use Rattle.pq_words.specs.Text.{is_blank, is_all_blank, trimmed};

// A space or a tab.
fn is_blank(byte: u8) -> bool
    ensures { result ≡ is_blank byte }
{
    byte == b' ' || byte == b'\t'
}

// How many blanks stand at the front.
fn blanks_in_front(text: &[u8]) -> usize
    ensures value { result ≡ prefix_len is_blank text.now }
    ensures within { result ≤ length text.now }
{
    text.iter().take_while(|byte| is_blank(**byte)).count()
}

// How many blanks stand at the end.
fn blanks_at_end(text: &[u8]) -> usize
    ensures value { result ≡ suffix_len is_blank text.now }
    ensures within { result ≤ length text.now }
{
    text.iter()
        .rev()
        .take_while(|byte| is_blank(**byte))
        .count()
}

// The text without the blanks at both its ends.
pub(crate) fn trimmed(text: &[u8]) -> &[u8]
    ensures { result.now ≡ trimmed text.now }
{
    let front = &text[blanks_in_front(text)..];
    &front[..front.len() - blanks_at_end(front)]
}

// Whether the text holds nothing but blanks.
pub(crate) fn is_all_blank(text: &[u8]) -> bool
    ensures { result ≡ is_all_blank text.now }
{
    text.iter().all(|byte| is_blank(*byte))
}
