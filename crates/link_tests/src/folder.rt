//! Calls on a file of the folder that the test runs in, of which one is refused.
use log::span::Spans;
use log::{Log, Record, kv};
use std::alloc::Allocator;
use std::cell::Cell;
use std::fmt::Display;
use std::fs::{Metadata, OpenOptions};
use std::io::ErrorKind;
use std::rt::Files;
use std::test::Fail;
use std::{fs, io};
use std_link::FolderShelf;
use survey_link::{LinkFault, Shelf};

// A runtime that counts looks behind links and openings, and refuses one of them by an error of this kind.
#[derive(Drop)]
struct Looks<'a, R> {
    rt: &'a R,
    refused: u32,
    refusal: ErrorKind,
    count: Cell<u32>,
}

impl<'a, R> Looks<'a, R> {
    fn new(rt: &'a R, refused: u32, refusal: ErrorKind) -> Looks<'a, R> {
        Looks {
            rt,
            refused,
            refusal,
            count: Cell::new(0),
        }
    }

    // Counts a look or an opening, and refuses it if it is the one.
    fn pass(&self) -> io::Result<()> {
        self.count.set(self.count.get().saturating_add(1));
        if self.count.get() == self.refused {
            return Err(self.refusal.into());
        }
        Ok(())
    }
}

impl<'a, R: Alloc> Alloc for Looks<'a, R> {
    type A = R::A;

    fn alloc(&self) -> R::A {
        self.rt.alloc()
    }
}

impl<'a, R: Files> Files for Looks<'a, R> {
    type File = R::File;

    type Dir = R::Dir;

    fn open_file(&self, how: &OpenOptions, path: &str) -> io::Result<R::File> {
        self.pass()?;
        self.rt.open_file(how, path)
    }

    fn open_dir(&self, path: &str) -> io::Result<R::Dir> {
        self.rt.open_dir(path)
    }

    fn metadata(&self, path: &str) -> io::Result<Metadata> {
        self.pass()?;
        self.rt.metadata(path)
    }

    fn symlink_metadata(&self, path: &str) -> io::Result<Metadata> {
        self.rt.symlink_metadata(path)
    }

    fn copy(&self, from: &str, to: &str) -> io::Result<u64> {
        self.rt.copy(from, to)
    }

    fn rename(&self, from: &str, to: &str) -> io::Result<()> {
        self.rt.rename(from, to)
    }

    fn remove_file(&self, path: &str) -> io::Result<()> {
        self.rt.remove_file(path)
    }

    fn create_dir(&self, path: &str) -> io::Result<()> {
        self.rt.create_dir(path)
    }

    fn remove_dir(&self, path: &str) -> io::Result<()> {
        self.rt.remove_dir(path)
    }

    fn remove_dir_all<B: Allocator>(&self, alloc: B, path: &str) -> io::Result<()> {
        self.rt.remove_dir_all(alloc, path)
    }
}

impl<'a, R: Log> Log for Looks<'a, R> {
    fn enabled(&self, metadata: &log::Metadata<'_>) -> bool {
        self.rt.enabled(metadata)
    }

    fn log<D: Display, K: kv::Source, S: Spans>(&self, message: &Record<'_, D, K, S>) {
        self.rt.log(message);
    }

    fn flush(&self) {
        self.rt.flush();
    }

    fn target(&self) -> &str {
        self.rt.target()
    }
}

// What a shelf answers to `get` where one of its looks and openings is refused by an error of this kind, and how many there were.
fn answer_of<R: Files + AllocGlobal + Log>(
    rt: &R,
    refused: u32,
    refusal: ErrorKind,
) -> (&'static str, u32) {
    let looks = Looks::new(rt, refused, refusal);
    let answer = match FolderShelf::here(&looks).get(rt.alloc(), "twice") {
        Ok(Some(_)) => "there",
        Ok(None) => "absent",
        Err(LinkFault::OutOfMemory) => "out of memory",
        Err(LinkFault::Failed) => "failed",
    };
    (answer, looks.count.get())
}

// Each line: whether the look (1) or the opening behind it (2) is refused, and by which kind of error; what the shelf answers, and
// how often it looks and opens in all.
static REFUSALS: &str = "\
1 interrupted: there, 3
1 absent: absent, 1
1 no memory: out of memory, 1
1 a folder: failed, 1
2 interrupted: there, 4
2 absent: absent, 2
2 no memory: out of memory, 2
2 a folder: failed, 2
";

// The kind of error that a line names.
fn kind_of(word: &str) -> ErrorKind {
    match word {
        "interrupted" => ErrorKind::Interrupted,
        "absent" => ErrorKind::NotFound,
        "no memory" => ErrorKind::OutOfMemory,
        _ => ErrorKind::IsADirectory,
    }
}

// Whether a call is answered as a line says.
fn goes<R: Files + AllocGlobal + Log>(rt: &R, line: &str) -> Result<bool, Fail> {
    let (refusal, wanted) = line.split_once(": ").unwrap_or((line, ""));
    let (refused, kind) = refusal.split_once(' ').unwrap_or((refusal, ""));
    let (answer, count) = answer_of(rt, refused.parse::<u32>()?, kind_of(kind));
    Ok(format!(in rt.alloc(); "{answer}, {count}")?.as_str() == wanted)
}

#[test]
fn an_interrupted_call_is_made_again(rt: HostRuntime) -> Result<(), Fail> {
    fs::write(&rt, "twice", "two")?;
    for line in REFUSALS.lines() {
        assert!(rt; goes(&rt, line)?, "{line}");
    }
    fs::remove_file(&rt, "twice")?;
    Ok(())
}
