// Words of whole numbers.
use number_text::number_word;

// Words and what they spell; the greatest and the least number of 128 bits, and one further each way.
static WORDS: [(&str, Option<i128>); 25] = [
    ("0", Some(0)),
    ("7", Some(7)),
    ("-1", Some(-1)),
    ("4096", Some(4096)),
    ("-2224", Some(-2224)),
    ("170141183460469231731687303715884105727", Some(i128::MAX)),
    ("-170141183460469231731687303715884105728", Some(i128::MIN)),
    ("170141183460469231731687303715884105728", None),
    ("-170141183460469231731687303715884105729", None),
    ("1000000000000000000000000000000000000000", None),
    ("", None),
    ("-", None),
    ("-0", None),
    ("00", None),
    ("-01", None),
    ("07", None),
    ("+1", None),
    ("1-", None),
    ("--1", None),
    ("1 ", None),
    (" 1", None),
    ("1.0", None),
    ("x", None),
    ("1_0", None),
    ("\u{661}", None),
];

#[test]
fn words(rt: HostRuntime) {
    for (word, number) in &WORDS {
        assert!(rt; number_word(word.as_bytes()) == *number, "{word}");
    }
}

#[test]
fn other_bytes(rt: HostRuntime) {
    assert!(rt; number_word(&[49, 255]).is_none());
}
