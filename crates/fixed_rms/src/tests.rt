use super::*;
use std::test::Fail;

// A cycle of a sine of 10,000 counts at 32,500 microvolts a count.
const SINE: [i64; 24] = [
    0,
    84_110_000,
    162_500_000,
    229_807_500,
    281_450_000,
    313_917_500,
    325_000_000,
    313_917_500,
    281_450_000,
    229_807_500,
    162_500_000,
    84_110_000,
    0,
    -84_110_000,
    -162_500_000,
    -229_807_500,
    -281_450_000,
    -313_917_500,
    -325_000_000,
    -313_917_500,
    -281_450_000,
    -229_807_500,
    -162_500_000,
    -84_110_000,
];

#[test]
fn worked_values(rt: HostRuntime) -> Result<(), Fail> {
    assert_eq!(rt; isqrt(0), 0);
    assert_eq!(rt; isqrt(3), 1);
    assert_eq!(rt; isqrt(99), 9);
    assert_eq!(rt; isqrt(100), 10);
    assert_eq!(rt;
        isqrt(99_999_999_999_999_999_999_999_999),
        9_999_999_999_999
    );
    assert_eq!(rt;
        isqrt(100_000_000_000_000_000_000_000_000),
        10_000_000_000_000
    );
    assert_eq!(rt; mean_square(&[3, -4]), 12);
    assert_eq!(rt; sum_of_squares(&[3, -4]), 25);
    assert_eq!(rt; sum_of_squares(&[]), 0);
    // on both sides of 32 bits
    assert_eq!(rt;
        sum_of_squares(&[4_294_967_295, -4_294_967_295]),
        36_893_488_130_239_234_050
    );
    assert_eq!(rt;
        sum_of_squares(&[4_294_967_295, -4_294_967_296]),
        36_893_488_138_829_168_641
    );
    assert_eq!(rt; root_of_mean(35, 4), 2);
    assert_eq!(rt; root_of_mean(36, 4), 3);
    assert_eq!(rt; rms(&SINE), 229_805_362);
    assert_eq!(rt; rms(&[227_500_000, -227_500_000]), 227_500_000);
    assert_eq!(rt; rms(&[5, -3, 1, 0]), 2);
    assert_eq!(rt; root_mean(&[229_805_362, 211_869_380]), 221_019_386);
    let mut fifteen = [229_805_362; 15];
    fifteen[1] = 211_869_380;
    assert_eq!(rt; root_mean(&fifteen), 228_653_405);
    Ok(())
}
