//! The ends of a connection, which keep their numbers whoever borrows them.
ghost use Rattle.std.specs.Prelude.{◌≡◌};

use std::marker::{Brand, Model, PhantomData};
use survey_link::{Failed, Sink, Source};

/// The numbers of a connection's ends. Each call of a program picks them.
pub(crate) trait Numbers {
    ghost use Rattle.std.specs.Prelude.{ℕ, Option};

    ghost source: { Option ℕ };

    ghost sink: { Option ℕ };
}

impl Numbers for Brand {
    ghost use Rattle.std.specs.Prelude.{None};

    ghost source = { None };

    ghost sink = { None };
}

/// A source that has its number for good: what borrows it may read, and can't put another in its place.
#[derive(Drop)]
pub(crate) struct NumberedSource<S: Source + Drop, J: Numbers> {
    source: S,
    of: PhantomData<J>,
}

impl<S: Source + Drop, J: Numbers> Model for NumberedSource<S, J> {
    ghost use Rattle.std.specs.Prelude.{◌≡◌};

    ghost Value = { S };

    ghost view = { λ a. a.source };

    ghost invariant = { λ a. S.number a.source ≡ J.source };
}

impl<S: Source + Drop, J: Numbers> NumberedSource<S, J> {
    pub(crate) fn new(source: S) -> NumberedSource<S, J>
        requires { S.number source ≡ J.source }
        ensures { result ≡ source }
    {
        NumberedSource {
            source,
            of: PhantomData,
        }
    }

    pub(crate) fn into_inner(self) -> S
        ensures inner { result ≡ self }
        ensures same { S.number result ≡ J.source }
    {
        let NumberedSource { source, .. } = self;
        source
    }
}

impl<S: Source + Drop, J: Numbers> Source for NumberedSource<S, J> {
    ghost left = { S.left };

    ghost readings = { S.readings };

    ghost faults = { S.faults };

    ghost number = { S.number };

    fn read(&mut self, buf: &mut [u8]) -> Result<usize, Failed> {
        self.source.read(buf)
    }
}

/// A sink that has its number for good, as a `NumberedSource` has.
#[derive(Drop)]
pub(crate) struct NumberedSink<K: Sink + Drop, J: Numbers> {
    sink: K,
    of: PhantomData<J>,
}

impl<K: Sink + Drop, J: Numbers> Model for NumberedSink<K, J> {
    ghost use Rattle.std.specs.Prelude.{◌≡◌};

    ghost Value = { K };

    ghost view = { λ a. a.sink };

    ghost invariant = { λ a. K.number a.sink ≡ J.sink };
}

impl<K: Sink + Drop, J: Numbers> NumberedSink<K, J> {
    pub(crate) fn new(sink: K) -> NumberedSink<K, J>
        requires { K.number sink ≡ J.sink }
        ensures { result ≡ sink }
    {
        NumberedSink {
            sink,
            of: PhantomData,
        }
    }

    pub(crate) fn into_inner(self) -> K
        ensures inner { result ≡ self }
        ensures same { K.number result ≡ J.sink }
    {
        let NumberedSink { sink, .. } = self;
        sink
    }
}

impl<K: Sink + Drop, J: Numbers> Sink for NumberedSink<K, J> {
    ghost held = { K.held };

    ghost flushed = { K.flushed };

    ghost faults = { K.faults };

    ghost number = { K.number };

    fn write(&mut self, buf: &[u8]) -> Result<usize, Failed> {
        self.sink.write(buf)
    }

    fn write_parts(&mut self, parts: [&[u8]; 4]) -> Result<usize, Failed> {
        self.sink.write_parts(parts)
    }

    fn flush(&mut self) -> Result<(), Failed> {
        self.sink.flush()
    }
}
