//! What the script of a made survey is.
use std::alloc::Global;
use std::test::Fail;
use survey_make::script;

// The number and the edits of a script, its length, the sum of its bytes, and the sum of each byte times its place, counted
// from 1. scripts/made-survey.py made them.
static SCRIPTS: &str = "\
0 1|5881 241919 702316677
0 8|40978 1679507 34263337659
7 64|327519 13423200 2202171672139
7 4096|20959530 861304430 9024312722485114
";

// The sum of the bytes, and that of each times its place: the last byte comes first, and counts once for each byte up to it.
fn sums(text: &[u8]) -> (u64, u64) {
    let mut plain: u64 = 0;
    let mut placed: u64 = 0;
    for byte in text.iter().rev() {
        plain = plain.wrapping_add(u64::from(*byte));
        placed = placed.wrapping_add(plain);
    }
    (plain, placed)
}

// The script of these words.
fn script_of(alloc: Global, words: &str) -> Result<Vec<u8>, Fail> {
    let (number, edits) = words.split_once(' ').unwrap_or((words, ""));
    let edits = edits.parse::<u32>()?;
    if edits < 1 || edits > 4_096 {
        return Err("so many edits are no script's".into());
    }
    Ok(script(alloc, number.parse::<u64>()?, edits)?)
}

// Whether the script of these words has the length and the sums.
fn is_made(alloc: Global, words: &str, wanted: &str) -> Result<bool, Fail> {
    let text = script_of(alloc, words)?;
    let (plain, placed) = sums(&text);
    let found = format!(in alloc; "{} {plain} {placed}", text.len())?;
    Ok(found.as_str() == wanted)
}

#[test]
fn scripts_are_made(rt: HostRuntime) -> Result<(), Fail> {
    for row in SCRIPTS.lines() {
        let (words, wanted) = row.split_once('|').unwrap_or((row, ""));
        assert!(rt; is_made(rt.alloc(), words, wanted)?, "{row}");
    }
    Ok(())
}
