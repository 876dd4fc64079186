//! What is shown of a book, at which readers look while it is changed.
ghost use Rattle.std.specs.Prelude.{◌≡◌, ◌<◌, ◌^◌, IfOk, OnOk, OnErr};

use crate::book::{Law, Naming};
use crate::page::{Page, Showable};
use core::mem::replace_with;
use crossbeam_utils::rule::{Outcome, Protocol};
use left_right::reader::Reader;
use left_right::writer::Writer;
use std::alloc::{AllocError, Global};
use std::marker::{Model, PhantomData};
use std::sync::Wait;

/// The rule of what is shown: it is of the book `J`.
pub struct OfBook<J> {
    of: PhantomData<J>,
}

impl<S: Drop, L: Law<S>, J: Naming> Protocol<Page<S, L>, ()> for OfBook<J> {
    ghost use Rattle.std.specs.Prelude.{◌≡◌};

    ghost holds = { λ page _. page.book ≡ J.book };

    ghost first = { tt };
}

/// What is found is of the book `J`.
pub(crate) struct Finds<J> {
    of: PhantomData<J>,
}

impl<S: Drop, L: Law<S>, J: Naming> Outcome<Page<S, L>, ()> for Finds<J> {
    ghost use Rattle.std.specs.Prelude.{◌≡◌};

    ghost then = { λ _ _ page _. page.book ≡ J.book };
}

/// The writer of `left_right`, whose operations are whole new values. Contracts see what it shows. It can't be dropped: end
/// it by `close`.
pub(crate) struct Showing<S: Drop, L: Law<S>, J: Naming>
where
    Page<S, L>: Showable,
{
    writer: Writer<Page<S, L>, Page<S, L>, (), OfBook<J>>,
}

impl<S: Drop, L: Law<S>, J: Naming> Model for Showing<S, L, J>
where
    Page<S, L>: Showable,
{
    ghost use Rattle.std.specs.Prelude.{◌≡◌, All, drop};
    ghost use Rattle.shared_history.specs.Histories.{SeenHistory};

    ghost Value = { SeenHistory S };

    ghost view = { λ s. s.writer.desk.shown.value.history };

    ghost invariant = { λ s. All (λ page. page.book ≡ J.book) (drop s.writer.behind s.writer.log.items) };
}

impl<S: Drop, L: Law<S>, J: Naming> Showing<S, L, J>
where
    Page<S, L>: Showable,
{
    /// Shows what is seen of the book, of which two copies are taken, to so many readers.
    pub(crate) fn new(
        alloc: Global,
        first: Page<S, L>,
        second: Page<S, L>,
        readers: usize,
    ) -> Result<Showing<S, L, J>, AllocError>
        requires readers { (0 < readers) × (readers < 2 ^ 32) }
        requires book { first.book ≡ J.book }
        requires alike { first ≡ second }
        ensures { IfOk result (λ showing. showing ≡ first.history) }
    {
        Ok(Showing {
            writer: Writer::new(alloc, first, second, readers)?,
        })
    }

    /// A reader.
    pub(crate) fn reader(&self) -> Result<Reader<Page<S, L>, (), OfBook<J>>, AllocError> {
        self.writer.factory().reader()
    }

    /// Shows what is seen now. It waits for readers that are still looking at what was shown before last.
    ///
    /// # Errors
    ///
    /// `AllocError` where there is no memory for it: what was shown before stays.
    pub(crate) fn show<R: Wait>(&mut self, rt: &R, page: Page<S, L>) -> Result<(), AllocError>
        requires { page.book ≡ J.book }
        ensures shown { OnOk result (self.new ≡ page.history) }
        ensures stays { OnErr result (self.new ≡ self.old) }
    {
        replace_with(self, page, |showing, page| showing.with_page(rt, page))
    }

    // It, once it shows that, where there was memory for it.
    fn with_page<R: Wait>(
        self,
        rt: &R,
        page: Page<S, L>,
    ) -> (Showing<S, L, J>, Result<(), AllocError>)
        requires { page.book ≡ J.book }
        ensures shown { OnOk result.1 (result.0 ≡ page.history) }
        ensures stays { OnErr result.1 (result.0 ≡ self) }
    {
        let Showing { mut writer } = self;
        match writer.append(page) {
            Ok(()) => {
                let (writer, published) = writer.publish_as::<Finds<J>, R>(rt);
                return (Showing { writer }, published);
            }
            Err(_) => return (Showing { writer }, Err(AllocError)),
        }
    }

    /// Ends it. It waits for readers that are still looking.
    pub(crate) fn close<R: Wait>(self, rt: &R) {
        let Showing { writer } = self;
        drop(writer.take(rt));
    }
}
