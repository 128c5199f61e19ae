// A printer over a sink that it borrows.
ghost use Rattle.pq_time.specs.Time.{IsClock};

use crate::writing::write_rows;
use lane_workers::{PrintFault, Printer};
use pq_base::Sink;
use pq_items::Item;
use pq_time::Clock;
use std::marker::{Brand, PhantomData};

// What a printer over a sink was made with. No value of it is made.
pub(crate) struct Origin {
    // Which borrow of the sink it is.
    pub(crate) borrow: u64,
    // The bytes that were taken before. A clause reads an array as a list, of any length.
    pub(crate) before: Option<[u8; 0]>,
    // The clock of the rows.
    pub(crate) clock: Clock,
}

// The bytes that a sink had taken at first. Each call picks them.
pub(crate) trait Start {
    ghost use Rattle.std.specs.Prelude.{ℕ, List, Option};

    ghost before: { Option (List ℕ) };
}

impl Start for Brand {
    ghost use Rattle.std.specs.Prelude.{None};

    ghost before = { None };
}

// A printer of rows to a sink.
#[derive(Drop)]
pub(crate) struct SinkPrinter<'a, 'r, O: Sink, B: Start> {
    pub(crate) clock: Clock,
    // Room for the rows that are written. A struct that held it would tell nothing of the sink after its end.
    pub(crate) rows: &'r mut Vec<u8>,
    pub(crate) out: &'a mut O,
    pub(crate) start: PhantomData<B>,
    ghost begins: { IsClock clock },
}

impl<'a, 'r, O: Sink, B: Start> Printer for SinkPrinter<'a, 'r, O, B> {
    ghost use Rattle.std.specs.Io.KnownBytes.{Appends};
    ghost use Rattle.pq_base.specs.Outside.{AppendsFront};
    ghost use Rattle.pq_report.specs.ReportText.{rows_text};

    type Made = Origin;

    ghost made = { λ p. record { borrow = p.out.ghost_name; before = B.before; clock = p.clock } };

    ghost printed = { λ p items. Appends B.before (O.taken p.out.now) (rows_text p.clock items) };

    ghost broke = { λ p items. AppendsFront B.before (O.taken p.out.now) (rows_text p.clock items) };

    ghost count = { λ p. O.faults p.out.now };

    ghost counts_each = { O.counts_each };

    fn print(&mut self, items: &[Item]) -> Result<(), PrintFault> {
        write_rows(self.rows, &self.clock, items, self.out)
    }

    fn faults(&self) -> u64 {
        self.out.faults()
    }
}
