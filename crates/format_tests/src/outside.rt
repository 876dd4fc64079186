//! Files for tools of others, which `scripts/check-fits.sh` gives them.
use crate::tile_files::written_again;
use healpix_nested::Cell;
use small_files::header;
use std::alloc::Global;
use std::test::Fail;
use survey_conf::Conf;

// The description of a survey of that depth, whose tiles have two columns and two lines.
fn survey(alloc: Global, bitpix: u8) -> Result<Conf, Fail> {
    let text = format!(in alloc;
        "creator_did = ivo://example/P/one\nobs_title = Survey\nhips_release_date = 2024-05-01T00:00Z\nhips_status = public\nhips_order = 3\nhips_tile_width = 2\nsurvey_bitpix = {bitpix}\nsurvey_bscale = 2.5E-3\nsurvey_bzero = -7\nsurvey_blank = 0\n"
    )?;
    Ok(Conf::read(alloc, text.as_bytes())?)
}

// A tile file of that depth as another tool may write it: without the cards that have defaults, and without filling.
fn foreign(alloc: Global, bitpix: u8) -> Result<Vec<u8>, Fail> {
    let cards = format!(in alloc;
        "SIMPLE  = T / of another tool\nBITPIX  = {bitpix}\nNAXIS   = 2\nNAXIS1  = 2\nNAXIS2  = 2\nBSCALE  = 0.0025\nBZERO   = -7.\nEND"
    )?;
    let mut file = header(alloc, cards.as_str())?;
    for byte in 0..4 * (bitpix / 8) {
        file.push(byte)?;
    }
    Ok(file)
}

// The file that this crate writes of it.
fn own(alloc: Global, bitpix: u8) -> Result<Vec<u8>, Fail> {
    let cell = Cell::new(3, 767).ok_or("no cell")?;
    let conf = survey(alloc, bitpix)?;
    written_again(alloc, &foreign(alloc, bitpix)?, &conf, cell)
}

// Prints the bytes of a file in hexadecimal digits, behind its name.
fn print(rt: &HostRuntime, bitpix: u8, bytes: &[u8]) -> Result<(), Fail> {
    print!(rt; "tile-{bitpix} ")?;
    for byte in bytes {
        print!(rt; "{byte:02x}")?;
    }
    println!(rt;)?;
    Ok(())
}

#[test]
fn prints_files_for_tools_of_others(rt: HostRuntime) -> Result<(), Fail> {
    for bitpix in [8, 16, 32, 64] {
        let file = own(rt.alloc(), bitpix)?;
        let Some((_last, file)) = file.as_slice().split_last() else {
            return Err("no file".into());
        };
        print(&rt, bitpix, file)?;
    }
    Ok(())
}
