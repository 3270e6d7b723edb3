//! Tests of numbers by words.

use super::*;

#[test]
fn words_and_their_numbers(rt: HostRuntime) {
    for (word, most, wanted) in [
        ("", 19, None),
        ("0", 0, None),
        ("0", 1, Some(0)),
        ("0", 19, Some(0)),
        ("00", 19, None),
        ("01", 19, None),
        ("7", 19, Some(7)),
        ("7", 0, None),
        ("10", 2, Some(10)),
        ("10", 1, None),
        ("4294967296", 10, Some(4294967296)),
        ("42949672960", 10, None),
        ("123456789012345678", 18, Some(123456789012345678)),
        ("1234567890123456789", 18, None),
        ("1234567890123456789", 19, Some(1234567890123456789)),
        ("9999999999999999999", 19, Some(9999999999999999999)),
        ("10000000000000000000", 19, None),
        ("18446744073709551615", 19, None),
        ("x", 19, None),
        ("1x", 19, None),
        ("1e3", 19, None),
        ("+1", 19, None),
        ("-1", 19, None),
        (" 1", 19, None),
        ("1 ", 19, None),
        ("1:", 19, None),
        ("1/", 19, None),
    ] {
        if most <= MOST_U64_DIGITS {
            let given = number_of(word.as_bytes(), most);
            assert_eq!(rt; given, wanted, "{word} of {most} digits");
        }
    }
}
