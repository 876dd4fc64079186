//! Worked examples, as tables.

use decimal_scale::{BadReal, Decimal, plain_decimal, split_sign, whole_number};
use std::alloc::{AllocError, Global};
use std::test::Fail;

// The text of a number.
fn text_of<'a>(number: &Decimal, out: &'a mut [u8; 32]) -> &'a [u8] {
    let len = number.text_into(out);
    &out[..len]
}

// A text, its mantissa, its exponent, and what is written of the number.
const NUMBERS: &str = "1.0 1 0 1.0E0
3.2768E4 32768 0 32768.0E0
-0.0250D-2 -25 -5 -25.0E-5
1000 1 3 1.0E3
0.0E999 0 0 0.0E0
1. 1 0 1.0E0
.5 5 -1 5.0E-1
+.5 5 -1 5.0E-1
-.5 -5 -1 -5.0E-1
1e5 1 5 1.0E5
1d-5 1 -5 1.0E-5
2D+07 2 7 2.0E7
00012300 123 2 123.0E2
-0 0 0 0.0E0
-.0e-7 0 0 0.0E0
10.01 1001 -2 1001.0E-2
123456789012345678 123456789012345678 0 123456789012345678.0E0
00.012345678901234567800E1 123456789012345678 -18 123456789012345678.0E-18
-999999999999999999E400 -999999999999999999 400 -999999999999999999.0E400
-999999999999999999e-400 -999999999999999999 -400 -999999999999999999.0E-400
100E398 1 400 1.0E400
0.01d402 1 400 1.0E400
0.1D-399 1 -400 1.0E-400
10E-401 1 -400 1.0E-400
0E99999999999999999999999999999999999999999999999999 0 0 0.0E0
0d-99999999999999999999999999999999999999999999999999 0 0 0.0E0";

// The field of a row at a place.
fn field(row: &str, at: usize) -> &str {
    row.split(' ').nth(at).unwrap_or("")
}

// Whether the number of a row has its parts, is written so, and is read again.
fn has_parts(row: &str, number: &Decimal) -> bool {
    let written = field(row, 3).as_bytes();
    field(row, 1).parse::<i64>() == Ok(number.mantissa())
        && field(row, 2).parse::<i32>() == Ok(number.exp())
        && text_of(number, &mut [b'#'; 32]) == written
        && Decimal::read(written) == Ok(*number)
}

// Whether the text of a row is read as its number.
fn is_as_the_row_says(row: &str) -> bool {
    match Decimal::read(field(row, 0).as_bytes()) {
        Ok(number) => has_parts(row, &number),
        Err(_) => false,
    }
}

#[test]
fn reads_and_writes_the_normal_form(rt: HostRuntime) {
    for row in NUMBERS.lines() {
        assert!(rt; is_as_the_row_says(row), "{row}");
    }
}

// Texts that are no real numbers.
const NO_NUMBERS: &str = "
.
+
-.
E5
1E
1E+
1E5.0
1E5E5
1.2.3
1..
+-1
--1
1-
 1
1 
1F5
NaN
1234567890123456789x
1E401x";

// Numbers of more than 18 digits.
const LONG_NUMBERS: &str = "1234567890123456789
-0.01234567890123456789000E1000
1000000000000000001";

// Numbers with an exponent below -400 or above 400.
const FAR_NUMBERS: &str = "1E401
1D401
1e401
1d401
1E-401
1D-401
1e-401
1d-401
10E400
-0.1E-400
1E1000000000000000000000000000000
1E-99999999999999999999999999999999999999999999999999";

// The first of these texts that isn't refused with that fault.
fn other_answer(texts: &str, fault: BadReal) -> Option<&str> {
    for text in texts.lines() {
        if Decimal::read(text.as_bytes()) != Err(fault) {
            return Some(text);
        }
    }
    None
}

#[test]
fn refuses_other_texts(rt: HostRuntime) {
    let other = other_answer(NO_NUMBERS, BadReal::NotANumber)
        .or(other_answer(LONG_NUMBERS, BadReal::TooLong))
        .or(other_answer(FAR_NUMBERS, BadReal::Exponent));
    assert!(rt; other.is_none(), "{other:?}");
}

// Zeros, and what is before and after them.
fn with_zeros(
    alloc: Global,
    before: &str,
    zeros: usize,
    after: &str,
) -> Result<Vec<u8>, AllocError> {
    let mut text = Vec::from_slice(alloc, before.as_bytes())?;
    for _ in 0..zeros {
        text.push(b'0')?;
    }
    text.extend_from_slice(after.as_bytes())?;
    Ok(text)
}

// What is before some zeros, how many these are, what follows them, and the mantissa and the exponent, or the fault.
type ZerosRow = (
    &'static str,
    usize,
    &'static str,
    Result<(i64, i32), BadReal>,
);

static ZEROS: [ZerosRow; 11] = [
    ("0.", 1_000_000, "1E1000001", Ok((1, 0))),
    ("-2", 1_000_000, "E-1000000", Ok((-2, 0))),
    ("-2", 1_000_000, "E-1000401", Err(BadReal::Exponent)),
    ("3E", 1_000, "5", Ok((3, 5))),
    ("3E-", 1_000, "401", Err(BadReal::Exponent)),
    ("3E1", 1_000, "", Err(BadReal::Exponent)),
    ("3E-1", 1_000, "", Err(BadReal::Exponent)),
    ("0.0E1", 1_000, "", Ok((0, 0))),
    ("1", 1_000_000, "1", Err(BadReal::TooLong)),
    ("1", 1_000_000, "1?", Err(BadReal::NotANumber)),
    ("", 1_000_000, ".", Ok((0, 0))),
];

// The mantissa and the exponent of a text, or its fault.
fn parts_of(text: &[u8]) -> Result<(i64, i32), BadReal> {
    let number = Decimal::read(text)?;
    Ok((number.mantissa(), number.exp()))
}

// Whether the text of a row has its outcome.
fn has_outcome(
    alloc: Global,
    (before, zeros, after, outcome): &ZerosRow,
) -> Result<bool, AllocError> {
    let text = with_zeros(alloc, before, *zeros, after)?;
    Ok(parts_of(&text) == *outcome)
}

#[test]
fn reads_texts_of_any_length(rt: HostRuntime) -> Result<(), Fail> {
    for row in &ZEROS {
        assert!(rt; has_outcome(rt.alloc(), row)?, "{row:?}");
    }
    Ok(())
}

#[test]
fn writes_at_the_front_and_leaves_the_rest(rt: HostRuntime) -> Result<(), Fail> {
    let number = Decimal::read(b"-999999999999999999E-400")
        .ok()
        .ok_or("no number")?;
    let mut out = [b'#'; 30];
    assert!(rt; number.text_into(&mut out) == 26);
    assert!(rt; out.as_slice() == b"-999999999999999999.0E-400####".as_slice());
    let zero = Decimal::read(b"-0.0").ok().ok_or("no number")?;
    assert!(rt; zero.text_into(&mut out[..26]) == 5);
    assert!(rt; out.as_slice() == b"0.0E099999999999999.0E-400####".as_slice());
    Ok(())
}

#[test]
fn prints_numbers_and_faults(rt: HostRuntime) -> Result<(), Fail> {
    let number = Decimal::read(b"-0.0250D-2").ok().ok_or("no number")?;
    let text = format!(in rt.alloc();
        "{number}: {}, {}, {}",
        BadReal::NotANumber,
        BadReal::TooLong,
        BadReal::Exponent
    )?;
    assert!(rt;
        text.as_str()
            == "-25.0E-5: not a real number, more than 18 significant digits, an exponent below -400 or above 400"
    );
    Ok(())
}

// A text, its number in plain decimals, and its whole number.
const WHOLE_NUMBERS: &str = "0|0|0
7|7|7
10302|10302|10302
007|none|7
00|none|0
-0|none|0
+0|none|0
+16|none|16
-32768|none|-32768
9223372036854775807|9223372036854775807|9223372036854775807
9223372036854775808|9223372036854775808|none
-9223372036854775808|none|-9223372036854775808
-9223372036854775809|none|none
-00009223372036854775808|none|-9223372036854775808
18446744073709551615|18446744073709551615|none
18446744073709551616|none|none
99999999999999999999999999999999|none|none
|none|none
+|none|none
-|none|none
--1|none|none
+-1|none|none
 1|none|none
1 |none|none
1.|none|none
1E0|none|none
0x10|none|none
1_000|none|none
\u{0661}|none|none";

// A number, or `none`.
fn shown(alloc: Global, number: Option<i128>) -> Result<String, AllocError> {
    match number {
        Some(number) => format!(in alloc; "{number}"),
        None => String::from_str(alloc, "none"),
    }
}

// Whether a number is shown so.
fn is_shown(alloc: Global, number: Option<i128>, text: &str) -> Result<bool, AllocError> {
    Ok(shown(alloc, number)?.as_str() == text)
}

// The number in plain decimals of a text, and its whole number.
fn plain_in(text: &[u8]) -> Option<i128> {
    Some(i128::from(plain_decimal(text)?))
}

fn whole_in(text: &[u8]) -> Option<i128> {
    Some(i128::from(whole_number(text)?))
}

// The part of a row of whole numbers at a place.
fn part(row: &str, at: usize) -> &str {
    row.split('|').nth(at).unwrap_or("")
}

// Whether both numbers of the row's text are those that it says.
fn has_numbers(alloc: Global, row: &str) -> Result<bool, AllocError> {
    let text = part(row, 0).as_bytes();
    Ok(
        is_shown(alloc, plain_in(text), part(row, 1))?
            && is_shown(alloc, whole_in(text), part(row, 2))?,
    )
}

#[test]
fn reads_whole_numbers(rt: HostRuntime) -> Result<(), Fail> {
    for row in WHOLE_NUMBERS.lines() {
        assert!(rt; has_numbers(rt.alloc(), row)?, "{row}");
    }
    assert!(rt; plain_decimal(b"1\xFF").is_none() && whole_number(b"-\xFF").is_none());
    Ok(())
}

// A text, whether it has the sign of a negative number, and what follows the sign.
static SIGNS: [(&str, bool, &str); 6] = [
    ("-25", true, "25"),
    ("+25", false, "25"),
    ("25", false, "25"),
    ("--25", true, "-25"),
    ("-", true, ""),
    ("", false, ""),
];

#[test]
fn splits_signs(rt: HostRuntime) {
    for (text, negative, rest) in &SIGNS {
        let split = split_sign(text.as_bytes());
        assert!(rt; split == (*negative, rest.as_bytes()), "at {text}");
    }
}
