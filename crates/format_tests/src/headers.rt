//! Headers as outside tools write them, and worked examples, as tables.

use decimal_scale::Decimal;
use fits_header::{Card, Header, HeaderFault, whole_blocks, write_cards};
use small_files::{fill_block, push_card};
use std::alloc::{AllocError, Global};
use std::process::Abort;
use std::test::Fail;

// So many cards COMMENT, and these cards, one a line.
fn header(alloc: Global, comments: usize, lines: &str) -> Result<Vec<u8>, AllocError> {
    let mut text = Vec::new(alloc);
    for _ in 0..comments {
        push_card(&mut text, "COMMENT")?;
    }
    for line in lines.lines() {
        push_card(&mut text, line)?;
    }
    fill_block(&mut text, b' ')?;
    Ok(text)
}

// As outside tools write a header of two blocks; the end card is card 38.
const OUTSIDE: &str = "SIMPLE  =                    T / conforms to FITS standard
BITPIX  =                   16 / array data type
NAXIS   = 2
NAXIS1  =                    2
NAXIS2  = +0002/lines
NAXIS3  = ?
NAXIS10 = ?
BLANKS  = ?
BLANK     ?
BITPIX ='?'
bitpix  = ?
EXTEND  =                    T
        = no keyword
COMMENT   FITS (Flexible Image Transport System) format is defined in 'Astronomy
COMMENT = ~
CONTINUE  'a long text&'
HISTORY BITPIX  = 8

DATE    = '2024-05-01T00:00:00' / made
BSCALE  = 1.0 / scale
BZERO   =          -0.0250D-2 // zero






















END     = and what follows
BITPIX  = ?";

// A header of no named card.
fn nothing() -> Header {
    Header {
        first_simple: false,
        simple: None,
        bitpix: None,
        naxis: None,
        naxis1: None,
        naxis2: None,
        bscale: None,
        bzero: None,
        blank: None,
    }
}

// Whether these cards behind so many cards COMMENT are read as this header, which is so long.
fn is_read(
    alloc: Global,
    comments: usize,
    lines: &str,
    wanted: &Header,
    length: usize,
) -> Result<bool, AllocError> {
    let text = header(alloc, comments, lines)?;
    match Header::read(&text) {
        Ok((read, len)) => Ok(read == *wanted && len == length),
        Err(_) => Ok(false),
    }
}

#[test]
fn reads_what_tools_write(rt: HostRuntime) -> Result<(), Fail> {
    let outside = Header {
        first_simple: true,
        simple: Some(true),
        bitpix: Some(16),
        naxis: Some(2),
        naxis1: Some(2),
        naxis2: Some(2),
        bscale: Decimal::read(b"1").ok(),
        bzero: Decimal::read(b"-25E-5").ok(),
        blank: None,
    };
    assert!(rt; is_read(rt.alloc(), 0, OUTSIDE, &outside, 5_760)?);
    Ok(())
}

#[test]
fn a_header_may_have_no_values(rt: HostRuntime) -> Result<(), Fail> {
    assert!(rt; is_read(rt.alloc(), 1, "END", &nothing(), 2_880)?);
    let mut late = nothing();
    late.simple = Some(false);
    assert!(rt; is_read(rt.alloc(), 1, "SIMPLE  = F\nEND", &late, 2_880)?);
    Ok(())
}

// Lengths below that of a header.
static SHORT: [usize; 3] = [0, 160, 2_879];

fn check_short(rt: &impl Abort, text: &[u8]) {
    for len in &SHORT {
        let fault = fault_of(text, *len);
        assert!(rt; fault == Some(HeaderFault::Short), "{len} bytes");
    }
    assert!(rt;
        text.len() == 2_880 && fault_of(text, 2_880) == Some(HeaderFault::NotAscii { at: 0 })
    );
}

#[test]
fn a_short_input_has_no_header(rt: HostRuntime) -> Result<(), Fail> {
    let text = header(rt.alloc(), 0, "\u{7}\nEND\n")?;
    check_short(&rt, &text);
    Ok(())
}

// The fault of the first bytes of a text, where there are so many.
fn fault_of(text: &[u8], len: usize) -> Option<HeaderFault> {
    match Header::read(text.get(..len)?) {
        Ok(_) => None,
        Err(fault) => Some(fault),
    }
}

// How many cards COMMENT come before the others, the others, and what is said of such a header.
static HEADERS: [(usize, &str, &str); 43] = [
    (0, "END", "2880"),
    (0, "END\nEND\n\u{7}", "2880"),
    (35, "END", "2880"),
    (35, "END     \u{7f}", "2880"),
    (36, "END", "5760"),
    (1_295, "END", "103680"),
    (1_259, "END-", "1"),
    (0, "", "1"),
    (0, "SIMPLE  = ?\n\u{7}", "1"),
    (1_295, "\u{1f}", "2 103600"),
    (0, "\u{7}\nEND", "2 0"),
    (0, "SIMPLE  = ? / \u{7f}\nEND", "2 14"),
    (0, "BITPIX  = ?\nBITPIX  = \t\nEND", "2 90"),
    (1_295, "ENDE", "3"),
    (1_296, "END", "3"),
    (1_296, "\u{7}", "3"),
    (1_296, "", "3"),
    (0, "SIMPLE  = t\nEND", "4 1"),
    (0, "SIMPLE  = T\nBITPIX  = 16.0\nEND", "4 2"),
    (
        0,
        "NAXIS   = 1\n\nNAXIS   = 1\nNAXIS1  = 1\nNAXIS1  = ?\nNAXIS2  =\nEND",
        "4 5",
    ),
    (0, "BZERO   = 1\nBZERO   = ?\nEND", "4 2"),
    (0, "BZERO   = ?\nBZERO   = 1\nEND", "4 1"),
    (0, "SIMPLE  = TRUE\nEND", "4 1"),
    (0, "SIMPLE  = f\nEND", "4 1"),
    (0, "SIMPLE  = 'T'\nEND", "4 1"),
    (0, "SIMPLE  =\nEND", "4 1"),
    (0, "BITPIX  = 16.0\nEND", "4 1"),
    (0, "BITPIX  = 1E1\nEND", "4 1"),
    (0, "BITPIX  = 1 6\nEND", "4 1"),
    (0, "BITPIX  = 16 bits\nEND", "4 1"),
    (0, "BITPIX  = / 16\nEND", "4 1"),
    (0, "BITPIX  = -\nEND", "4 1"),
    (0, "BITPIX  = --1\nEND", "4 1"),
    (0, "BITPIX  = 9223372036854775808\nEND", "4 1"),
    (0, "BITPIX  = -9223372036854775809\nEND", "4 1"),
    (0, "BSCALE  = 1,0\nEND", "4 1"),
    (0, "BSCALE  = 1.0 1\nEND", "4 1"),
    (0, "BSCALE  = E5\nEND", "4 1"),
    (0, "BSCALE  = 1234567890123456789\nEND", "4 1"),
    (0, "BSCALE  = 1E401\nEND", "4 1"),
    (0, "BZERO   = NaN\nEND", "4 1"),
    (0, "SIMPLE  = T\nBITPIX  = 16\nBITPIX  = 16\nEND", "5 3"),
    (
        0,
        "BLANK   = 1\nBSCALE  = 1\nBLANK   = 1\nBSCALE  = 1\nBLANK   = 1\nEND",
        "5 3",
    ),
];

// How long a header is, or why there is none: its text.
fn length_or_fault(alloc: Global, text: &[u8]) -> Result<String, AllocError> {
    match Header::read(text) {
        Ok((_, len)) => format!(in alloc; "{len}"),
        Err(fault) => format!(in alloc; "{fault}"),
    }
}

// Whether that is said of the header of these cards.
fn is_said(alloc: Global, comments: usize, lines: &str, said: &str) -> Result<bool, AllocError> {
    let text = header(alloc, comments, lines)?;
    Ok(length_or_fault(alloc, &text)?.as_str() == said)
}

#[test]
fn a_header_has_a_length_or_a_first_fault(rt: HostRuntime) -> Result<(), Fail> {
    for (comments, lines, said) in &HEADERS {
        assert!(rt;
            is_said(rt.alloc(), *comments, lines, said)?,
            "{comments} cards and {lines}"
        );
    }
    Ok(())
}

// A card, and its value as a whole or a real number, or as T or F.
static VALUES: [(&str, &str); 15] = [
    ("BITPIX  = 16/x", "16"),
    ("BITPIX  = 16 /x", "16"),
    (
        "BITPIX  =                                                                     -8",
        "-8",
    ),
    ("BITPIX  = -0", "0"),
    ("BITPIX  = +7 ", "7"),
    ("BITPIX  = 9223372036854775807", "9223372036854775807"),
    ("BITPIX  = -9223372036854775808", "-9223372036854775808"),
    (
        "BITPIX  = 0000000000000000000000000000000000000000000000000000000000000000000032",
        "32",
    ),
    ("BZERO   = 3.2768E4", "32768"),
    ("BZERO   =             32768.0/", "32768"),
    ("BZERO   = -1d-3 / zero", "-0.001"),
    ("BZERO   = 1D+03", "1000"),
    ("BZERO   = .5", "0.5"),
    ("SIMPLE  = T", "T"),
    ("SIMPLE  =                    F / no", "F"),
];

// Whether the header has the value of a card.
fn has_value(header: &Header, card: &str, value: &str) -> bool {
    if card.starts_with("BITPIX") {
        return header.bitpix.is_some() && header.bitpix == value.parse::<i64>().ok();
    }
    if card.starts_with("BZERO") {
        return header.bzero.is_some() && header.bzero == Decimal::read(value.as_bytes()).ok();
    }
    header.simple == Some(value == "T")
}

// Whether the header of one card has its value.
fn is_value(alloc: Global, card: &str, value: &str) -> Result<bool, AllocError> {
    let mut text = Vec::new(alloc);
    push_card(&mut text, card)?;
    push_card(&mut text, "END")?;
    fill_block(&mut text, b' ')?;
    match Header::read(&text) {
        Ok((header, _)) => Ok(has_value(&header, card, value)),
        Err(_) => Ok(false),
    }
}

#[test]
fn reads_values(rt: HostRuntime) -> Result<(), Fail> {
    for (card, value) in &VALUES {
        assert!(rt; is_value(rt.alloc(), card, value)?, "{card}");
    }
    Ok(())
}

// Whether a header of the card alone is this line and spaces, at the front of what there is.
fn is_written(alloc: Global, card: Card, line: &str) -> Result<bool, AllocError> {
    let mut out = [b'#'; 2_881];
    let len = write_cards(&[card], &mut out);
    let mut expected = header(alloc, 0, line)?;
    expected.push(b'#')?;
    Ok(len == 2_880 && out.as_slice() == expected.as_slice())
}

// What the cards of `cards` are written as.
static CARDS: [&str; 7] = [
    "SIMPLE  =                    T",
    "A       =                    F",
    "NAXIS1  =                  512",
    "BLANK   = -9223372036854775808",
    "XTENSION= 'BINTABLE'",
    "COORDSYS= 'C       '",
    "END",
];

fn cards() -> [Card; 7] {
    [
        Card::logical(b"SIMPLE", true),
        Card::logical(b"A", false),
        Card::integer(b"NAXIS1", 512),
        Card::integer(b"BLANK", i64::MIN),
        Card::text(b"XTENSION", b"BINTABLE"),
        Card::text(b"COORDSYS", b"C"),
        Card::end(),
    ]
}

// A number, and its card BSCALE.
static SCALES: [(&str, &str); 4] = [
    ("3.2768E4", "BSCALE  =            32768.0E0"),
    ("1234567890123456E5", "BSCALE  = 1234567890123456.0E5"),
    ("-1234567890123456E5", "BSCALE  = -1234567890123456.0E5"),
    (
        "-123456789012345678E-5",
        "BSCALE  = -123456789012345678.0E-5",
    ),
];

// Whether the card BSCALE of a number is this line.
fn is_scale(alloc: Global, number: &str, line: &str) -> Result<bool, AllocError> {
    match Decimal::read(number.as_bytes()) {
        Ok(number) => is_written(alloc, Card::real(b"BSCALE", &number), line),
        Err(_) => Ok(false),
    }
}

#[test]
fn writes_cards(rt: HostRuntime) -> Result<(), Fail> {
    for (card, line) in cards().iter().zip(&CARDS) {
        assert!(rt; is_written(rt.alloc(), *card, line)?, "{line}");
    }
    for (number, line) in &SCALES {
        assert!(rt; is_scale(rt.alloc(), number, line)?, "{line}");
    }
    Ok(())
}

#[test]
fn a_header_fills_blocks(rt: HostRuntime) {
    assert!(rt; whole_blocks(2_880) == 2_880 && whole_blocks(2_881) == 5_760);
    let mut out = [b'#'; 5_761];
    assert!(rt; write_cards(&[], &mut out) == 0 && out[0] == b'#');
    assert!(rt; write_cards(&[Card::end(); 36], &mut out) == 2_880);
    assert!(rt; out[2_879] == b' ' && out[2_880] == b'#');
    assert!(rt; write_cards(&[Card::end(); 37], &mut out) == 5_760);
    assert!(rt; out[2_880] == b'E' && out[5_759] == b' ' && out[5_760] == b'#');
}
