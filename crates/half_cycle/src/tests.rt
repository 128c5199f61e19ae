// Worked windows, by hand: 24 samples a cycle at 1200 Hz and 50 Hz.
ghost use Rattle.std.specs.Prelude.{◌<◌, All};
ghost use Rattle.pq_words.specs.Magnitude.{IsWithin};

use crate::Windows;
use event_detect::Window;
use pq_words::MOST_MICROVOLTS;
use std::test::Fail;
use zero_cross::Rule;

const CYCLE: [i16; 24] = [
    0, 2588, 5000, 7071, 8660, 9659, 10000, 9659, 8660, 7071, 5000, 2588, 0, -2588, -5000, -7071,
    -8660, -9659, -10000, -9659, -8660, -7071, -5000, -2588,
];

// A sine of 32,500 microvolts a count, whose counts are halved at places 264 to 311.
fn sample(place: usize) -> i64
    ensures { IsWithin MOST_MICROVOLTS result }
{
    let count = i64::from(CYCLE[place % 24]);
    if 264 <= place && place < 312 {
        count / 2 * 32_500
    } else {
        count * 32_500
    }
}

fn halved_half_cycles() -> [i64; 552]
    ensures { All (IsWithin MOST_MICROVOLTS) result }
{
    let mut samples = [0; 552];
    for i in 0..552 {
        samples[i] = sample(i);
    }
    samples
}

fn window(start: u64, value: u64) -> Window
    requires { start < 552 }
{
    Window {
        start,
        end: start + 24,
        value,
    }
}

#[test]
fn windows_over_halved_half_cycles(rt: HostRuntime) -> Result<(), Fail> {
    let rule = Rule::of(1_200_000_000, 50);
    let samples = halved_half_cycles();
    let mut windows = Windows::new(&samples, rule);
    assert_eq!(rt; windows.next(), Some(window(24, 229_805_362)));
    let mut windows = windows.skip(17);
    assert_eq!(rt; windows.next(), Some(window(240, 229_805_362)));
    assert_eq!(rt; windows.next(), Some(window(252, 181_675_064)));
    assert_eq!(rt; windows.next(), Some(window(264, 114_896_273)));
    assert_eq!(rt; windows.next(), Some(window(276, 114_896_273)));
    assert_eq!(rt; windows.next(), Some(window(288, 114_896_273)));
    assert_eq!(rt; windows.next(), Some(window(300, 181_675_064)));
    assert_eq!(rt; windows.next(), Some(window(312, 229_805_362)));

    // The last boundary is 540, so the last window is the one from 516 on.
    let mut windows = windows.skip(16);
    assert_eq!(rt; windows.next(), Some(window(516, 229_805_362)));
    assert_eq!(rt; windows.next(), None);
    Ok(())
}
