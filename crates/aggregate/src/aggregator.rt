// The aggregator of basic intervals.
ghost use Rattle.std.specs.Prelude.{◌≤◌, []};
ghost use Rattle.aggregate.specs.Aggregator.{Completes, CompletesTens, HasSeen, HasSetting, KeepsSetting, MayFollow, MayFollowTens, SeesMore, SeesMoreTens};
ghost use Rattle.aggregate.specs.BasicOrder.{IsChannelCount, basic_of};
ghost use Rattle.aggregate.specs.TwoHourSum.{KeepsSetting as KeepsSettingOfTens};
ghost use Rattle.pq_time.specs.Time.{IsClock};

use crate::short::ShortSums;
use crate::ten::TenSum;
use crate::two_hour::TwoHourSum;
use crate::{Group, Out};
use pq_time::Clock;
use pq_words::MOST_SAMPLES;
use std::marker::Model;
use ten_twelve::Span;

/// Aggregates the basic intervals that it is fed to 150/180-cycle, ten-minute and two-hour intervals
/// (IEC 61000-4-30:2015, 4.5, 4.7).
#[derive(Drop)]
pub struct Aggregator {
    shorts: ShortSums,
    tens: TenSum,
    two_hours: TwoHourSum,
}

impl Model for Aggregator {
    ghost use Rattle.aggregate.specs.Aggregator.{AggregatorView, IsAggregator, aggregator_view};

    ghost Value = { AggregatorView };

    ghost view = { λ a. aggregator_view a.shorts a.tens a.two_hours };

    ghost invariant = { λ a. IsAggregator a.shorts a.tens a.two_hours };
}

impl Aggregator {
    /// An aggregator for a recording of `n` samples of so many channels, taken when the clock says, which has
    /// seen nothing.
    pub fn new(clock: Clock, n: u64, channels: u32) -> Aggregator
        requires clock { IsClock clock }
        requires samples { n ≤ MOST_SAMPLES }
        requires channels { IsChannelCount channels }
        ensures value { HasSeen result [] }
        ensures setting { HasSetting result clock n channels }
    {
        Aggregator {
            shorts: ShortSums::new(channels),
            tens: TenSum::new(clock, n, channels),
            two_hours: TwoHourSum::new(clock, n, channels),
        }
    }

    /// Feeds the next basic interval, with its mark as the first of a segment, the values of its channels by
    /// position and its flag, and gives the intervals that it completes. The basic intervals come in order.
    pub fn step(&mut self, basic: Span, front: bool, values: &[u64], flagged: bool) -> Out
        requires { MayFollow self.old (basic_of front basic values.now flagged) }
        ensures value { Completes self.old (basic_of front basic values.now flagged) result }
        ensures seen { SeesMore self.old self.new (basic_of front basic values.now flagged) }
        ensures same { KeepsSetting self.old self.new }
    {
        let short = self.shorts.step(basic, front, values, flagged);
        let ten = self.tens.step(basic, front, values, flagged);
        let two = step_if(&mut self.two_hours, &ten);
        Out { short, ten, two }
    }
}

// Feeds a ten-minute interval, if there is one, and gives the two-hour interval that it completes.
fn step_if(two_hours: &mut TwoHourSum, ten: &Option<Group>) -> Option<Group>
    requires { MayFollowTens two_hours.old ten.now }
    ensures value { CompletesTens two_hours.old ten.now result }
    ensures seen { SeesMoreTens two_hours.old two_hours.new ten.now }
    ensures same { KeepsSettingOfTens two_hours.old two_hours.new }
{
    match ten {
        Some(ten) => two_hours.step(ten),
        None => None,
    }
}
