//! A conversation with a peer.
ghost use Rattle.std.specs.Prelude.{◌≡◌};
ghost use Rattle.survey_link.specs.Inbox.{size};
ghost use Rattle.http_frame.specs.Next.{most_head};

use crate::ask::{Ask, send};
use crate::due::Due;
use crate::fault::{ReplyFault, fault_of};
use crate::reading::{ReplyStop, read_reply};
use http_frame::MAX_HEAD;
use std::alloc::{AllocError, Global};
use survey_link::{Failed, Inbox, Sink, Source};

/// What came of a peer.
#[derive(Drop)]
pub struct Received {
    // What belongs to no reply yet, with room for a head.
    inbox: Inbox,
    // The body of the last reply.
    body: Vec<u8>,
    ghost room: { size inbox ≡ most_head },
}

impl Received {
    ghost use Rattle.std.specs.Prelude.{[], IfOk};
    ghost use Rattle.survey_link.specs.Inbox.{held};

    /// Nothing came.
    ///
    /// # Errors
    ///
    /// `AllocError` where there is no memory for the longest head.
    pub fn new(alloc: Global) -> Result<Received, AllocError>
        ensures { IfOk result (λ received. held received.inbox ≡ []) }
    {
        let inbox = Inbox::new(alloc, MAX_HEAD)?;
        Ok(Received {
            inbox,
            body: Vec::new(alloc),
        })
    }
}

impl Received {
    ghost use Rattle.std.specs.Prelude.{◌++◌, ℕ, List};
    ghost use Rattle.survey_link.specs.Link.{CountsFault};
    ghost use Rattle.survey_link.specs.Inbox.{held};
    ghost use Rattle.http_frame.specs.Readings.{ReadsWhile};
    ghost use Rattle.mirror_frame.specs.Reply.{IsCutReply};
    ghost use Rattle.mirror_frame.specs.Reading.{ReadsReply, read_failed};

    // Reads the next reply, and answers its Survey-Prefix.
    fn read<S: Source>(&mut self, src: &mut S, due: Due) -> Result<Option<u32>, ReplyStop>
        ensures read { (came : List ℕ) × ReadsWhile S.left S.readings (IsCutReply due) (held self.old.inbox) src.old src.new came
            × ReadsReply due (held self.old.inbox ++ came) self.new.body.items (held self.new.inbox) (S.left src.new) result }
        ensures faults { CountsFault (read_failed result) (S.faults src.old) (S.faults src.new) }
    {
        read_reply(&mut self.inbox, src, &mut self.body, due)
    }
}

/// A conversation with a peer: what is read from it, what it is sent, and what came. Each is lent for a time of its own.
#[derive(Drop)]
pub struct Peer<'s, 'k, 'r, S, K> {
    /// What the peer sends.
    pub src: &'s mut S,
    /// What it is sent.
    pub sink: &'k mut K,
    /// What came of it.
    pub received: &'r mut Received,
}

impl<S: Source, K: Sink> Peer<'_, '_, '_, S, K> {
    ghost use Rattle.std.specs.Prelude.{IfOk, IfErr, OnOk, IfSome, MatchResult};
    ghost use Rattle.survey_link.specs.Inbox.{held};
    ghost use Rattle.mirror_frame.specs.Requests.{HasOrder};
    ghost use Rattle.mirror_frame.specs.Reply.{IsReply, FitsPrefix};
    ghost use Rattle.mirror_frame.specs.Reading.{StopsReply, TellsPinned, read_failed, write_failed};
    ghost use Rattle.mirror_frame.specs.Exchange.{IsExchanged, BreaksOff};
    ghost use Rattle.mirror_frame.specs.Peer.{talk, body_of, unread_at, Goes, Told};

    /// The body of the last reply.
    pub fn body(&self) -> &[u8]
        ensures { result.now ≡ body_of self.now }
    {
        &self.received.body
    }

    /// The first condition that the reply fails that `ask` has just answered by `Wrong`, where this was due. It is for the log
    /// alone.
    pub fn fault(&self, due: Due) -> ReplyFault<'_> {
        fault_of(self.received.inbox.held(), due)
    }

    /// Sends a request, flushes it, and reads its reply, in whatever pieces its bytes come: what came behind it stays held. It
    /// answers the reply's Survey-Prefix.
    ///
    /// # Errors
    ///
    /// `Wrong` if and only if the reply is malformed; `Cut` if and only if the input ends within it, before that is known;
    /// `ReadFault` and `WriteFault` if and only if that end's count of faults rose; `OutOfMemory`.
    pub fn ask(&mut self, ask: &Ask, due: Due) -> Result<Option<u32>, ReplyStop>
        requires { HasOrder ask.now }
        ensures asked { MatchResult result
            (λ prefix. IsExchanged S.Source K.Sink ask.now due (body_of self.new) (talk self.old) (talk self.new))
            (λ stop. BreaksOff S.Source K.Sink ask.now due (talk self.old) (talk self.new) stop) }
        ensures read { OnOk result (Told (unread_at S.Source self.old) (unread_at S.Source self.new) (λ bytes rest. IsReply due bytes (body_of self.new) rest)) }
        ensures prefix { IfOk result (λ prefix. FitsPrefix due prefix × TellsPinned due (body_of self.new) prefix) }
        ensures stop { IfErr result (λ stop. IfSome (unread_at S.Source self.old) (λ bytes. StopsReply due bytes stop)) }
        ensures goes { Goes S.Source K.Sink (read_failed result) (write_failed result) self.old self.new }
    {
        match send(self.sink, ask) {
            Ok(()) => self.received.read(self.src, due),
            Err(Failed) => Err(ReplyStop::WriteFault),
        }
    }
}
