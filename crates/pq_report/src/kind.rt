// The kinds of items, and the words of a kind.
ghost use Rattle.std.specs.Prelude.{◌≡◌, bytes_eq, find};
ghost use Rattle.pq_report.specs.ReportText.{flag_word, kind_word, open_word};

use pq_items::Item;
use pq_words::MOST_NUMBER;

// The kind of an item.
#[derive(Clone, Copy, Debug, PartialEq, Eq)]
pub(crate) enum ItemKind {
    Frequency,
    Basic,
    Short,
    Ten,
    TwoHour,
    Dip,
    Swell,
    Interruption,
}

// The kinds, as they are listed.
pub(crate) const KINDS: [ItemKind; 8] = [
    ItemKind::Frequency,
    ItemKind::Basic,
    ItemKind::Short,
    ItemKind::Ten,
    ItemKind::TwoHour,
    ItemKind::Dip,
    ItemKind::Swell,
    ItemKind::Interruption,
];

impl ItemKind {
    ghost use Rattle.std.specs.Prelude.{◌≡◌};
    ghost use Rattle.pq_items.specs.ItemTable.{rank_of};
    ghost use Rattle.pq_report.specs.ReportReading.{has_ticks, is_channel_of, is_count_of, kind_read};
    ghost use Rattle.pq_report.specs.ReportReading.{mark_read};
    ghost use Rattle.pq_report.specs.ReportText.{is_event, kind_of, kind_word, mark_word};

    pub(crate) fn of(item: &Item) -> ItemKind
        ensures { result ≡ kind_of item.now }
    {
        match item {
            Item::Frequency { .. } => ItemKind::Frequency,
            Item::Basic { .. } => ItemKind::Basic,
            Item::Short { .. } => ItemKind::Short,
            Item::Ten { .. } => ItemKind::Ten,
            Item::TwoHour { .. } => ItemKind::TwoHour,
            Item::Dip { .. } => ItemKind::Dip,
            Item::Swell { .. } => ItemKind::Swell,
            Item::Interruption { .. } => ItemKind::Interruption,
        }
    }

    // The rank of an item's kind among the kinds.
    pub(crate) fn rank_of(item: &Item) -> usize
        ensures { result ≡ rank_of item.now }
    {
        ItemKind::of(item) as usize
    }

    pub(crate) fn word(self) -> &'static str
        ensures { result.now ≡ kind_word self }
    {
        match self {
            ItemKind::Frequency => "freq",
            ItemKind::Basic => "basic",
            ItemKind::Short => "short",
            ItemKind::Ten => "ten",
            ItemKind::TwoHour => "two",
            ItemKind::Dip => "dip",
            ItemKind::Swell => "swell",
            ItemKind::Interruption => "interruption",
        }
    }

    // The word of an item's mark: whether it is flagged, or open.
    pub(crate) fn mark_word(self, mark: bool) -> &'static str
        ensures { result.now ≡ mark_word self mark }
    {
        if self.is_event() {
            open_word(mark)
        } else {
            flag_word(mark)
        }
    }

    // The kind that has this word.
    #[tactic(auto, unfolding(crate::specs::ReportReading::kind_read))]
    pub(crate) fn read(field: &[u8]) -> Option<ItemKind>
        ensures { result ≡ kind_read field.now }
    {
        find_kind(&KINDS, field)
    }

    // Whether the mark of this word is set; None where a kind has no such word.
    pub(crate) fn read_mark(self, field: &[u8]) -> Option<bool>
        ensures { result ≡ mark_read self field.now }
    {
        if field == self.mark_word(true).as_bytes() {
            return Some(true);
        }
        if field == self.mark_word(false).as_bytes() {
            return Some(false);
        }
        None
    }

    // Whether an item of the kind can be of this channel: 0 exactly for frequency.
    pub(crate) fn has_channel(self, number: u64) -> bool
        ensures { result ≡ is_channel_of self number }
    {
        match self {
            ItemKind::Frequency => number == 0,
            _ => 1 <= number && number <= u64::from(MOST_NUMBER),
        }
    }

    // Whether an item of the kind can be made of so many cycles, intervals or records.
    pub(crate) fn has_count(self, count: u64) -> bool
        ensures { result ≡ is_count_of self count }
    {
        match self {
            ItemKind::Frequency | ItemKind::Ten => true,
            ItemKind::Basic => count == 10 || count == 12,
            ItemKind::Short => count == 15,
            ItemKind::TwoHour => count == 12,
            ItemKind::Dip | ItemKind::Swell | ItemKind::Interruption => count == 0,
        }
    }

    // Whether an item of the kind begins at a tick.
    pub(crate) fn has_ticks(self) -> bool
        ensures { result ≡ has_ticks self }
    {
        matches!(
            self,
            ItemKind::Frequency | ItemKind::Ten | ItemKind::TwoHour
        )
    }

    // Whether it is a kind of events; the others are kinds of records.
    pub(crate) fn is_event(self) -> bool
        ensures { result ≡ is_event self }
    {
        matches!(
            self,
            ItemKind::Dip | ItemKind::Swell | ItemKind::Interruption
        )
    }
}

// The first of the kinds that has this word.
fn find_kind(kinds: &[ItemKind], field: &[u8]) -> Option<ItemKind>
    ensures { result ≡ find (λ k. bytes_eq field.now (kind_word k)) kinds.now }
{
    kinds
        .iter()
        .copied()
        .find(|kind| field == kind.word().as_bytes())
}

fn flag_word(flagged: bool) -> &'static str
    ensures { result.now ≡ flag_word flagged }
{
    if flagged { "flagged" } else { "clear" }
}

fn open_word(is_open: bool) -> &'static str
    ensures { result.now ≡ open_word is_open }
{
    if is_open { "open" } else { "closed" }
}
