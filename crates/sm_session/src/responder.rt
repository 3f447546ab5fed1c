// What answers requests.
ghost use Rattle.std.specs.Prelude.{◌<◌, [], length, ℕ, List, IfOk, OnOk, Some, None};
ghost use Rattle.sm_http.specs.declared.message.Head.{Head};
ghost use Rattle.sm_http.specs.declared.message.Message.{Message};
ghost use Rattle.sm_session.specs.Turns.{Asked};
ghost use Rattle.sm_session.specs.Responding.{Begun, HoldsOn, ReadsOn, FinishesRequest, FinishesReply};
ghost use Rattle.sm_session.specs.Responding.{HasAsked, HasRead, HasReadReply, HasReadRequest};
ghost use Rattle.sm_session.specs.Laws.{HasOneAsked, HasSomeAsked, HasOneReply, HasSomeReply};

use sm_http::{Head, Message};
use sm_tree::NoMemory;
use std::alloc::Global;

/// What a request comes to.
#[derive(Debug, Drop)]
pub enum Turn<C> {
    /// This answers it, and the back isn't asked.
    Answered(Message),
    /// The back is asked for this.
    Asking(C),
}

/// What answers requests, by itself or through one request to the back. It takes a message's body in pieces, so that none is held
/// whole that needn't be.
pub trait Responder {
    /// What its calls use beside it.
    type Store;

    /// A message whose body is read.
    type Body: Drop;

    /// A request that the back was asked.
    type Call: Drop;

    /// What a request comes to.
    ghost asking: { Self → Message → Asked → Type 0 };

    /// What a request that the back was asked, and the back's answer to it, come to.
    ghost replying: { Self → Message → Message → Message → Type 0 };

    /// The store is one that it can use.
    ghost stands: { Self → Self.Store → Type 0 };

    /// The two stores have all in common that no call changes.
    ghost alike: { Self → Self.Store → Self.Store → Type 0 };

    /// The body is of a message that was begun so, and these bytes of it were read.
    ghost reads: { Self → Self.Body → Begun → List ℕ → Type 0 };

    /// What the body holds is within the bounds that it has where these bytes were read.
    ghost holds: { Self → Self.Body → List ℕ → Type 0 };

    /// This request was asked.
    ghost calls: { Self → Self.Call → Message → Type 0 };

    /// Begins to read a request. `empty` says whether its body is.
    ///
    /// # Errors
    ///
    /// `NoMemory`.
    fn begin_request(
        &self,
        alloc: Global,
        store: &mut Self::Store,
        head: &Head,
        empty: bool,
    ) -> Result<Self::Body, NoMemory>
        requires stands { stands self.now store.old }
        ensures reads { IfOk result (λ body. reads self.now body (record { request = None; head = head.now; empty = empty }) []) }
        ensures alike { alike self.now store.old store.new };

    /// Begins to read the back's answer to a request.
    ///
    /// # Errors
    ///
    /// `NoMemory`.
    fn begin_reply(
        &self,
        alloc: Global,
        store: &mut Self::Store,
        call: Self::Call,
        head: &Head,
        empty: bool,
    ) -> Result<Self::Body, NoMemory>
        requires stands { stands self.now store.old }
        requires asked { HasAsked (calls self.now call) }
        ensures reads { IfOk result (λ body. (m : Message) → calls self.now call m
            → reads self.now body (record { request = Some m; head = head.now; empty = empty }) []) }
        ensures alike { alike self.now store.old store.new };

    /// Reads a piece of a body, which holds no more behind it than what the bytes so far allow.
    ///
    /// # Errors
    ///
    /// `NoMemory`, and the body is then of no use.
    fn piece(
        &self,
        alloc: Global,
        store: &mut Self::Store,
        body: &mut Self::Body,
        piece: &[u8],
    ) -> Result<(), NoMemory>
        requires stands { stands self.now store.old }
        requires begun { HasRead (reads self.now body.old) }
        requires some { 0 < length piece.now }
        ensures reads { OnOk result (ReadsOn (reads self.now body.old) (reads self.now body.new) piece.now) }
        ensures few { OnOk result (HoldsOn (reads self.now body.old) (holds self.now body.new) piece.now) }
        ensures alike { alike self.now store.old store.new };

    /// Ends to read a request: its answer, or what the back is asked for, whose text is appended to `out`.
    ///
    /// # Errors
    ///
    /// `NoMemory`.
    fn finish_request(
        &self,
        alloc: Global,
        store: &mut Self::Store,
        body: Self::Body,
        out: &mut Vec<u8>,
    ) -> Result<Turn<Self::Call>, NoMemory>
        requires stands { stands self.now store.old }
        requires whole { HasReadRequest (reads self.now body) }
        ensures comes { FinishesRequest (asking self.now) (calls self.now) (reads self.now body) out.old.items out.new.items result }
        ensures alike { alike self.now store.old store.new };

    /// Ends to read the back's answer: the answer to the front.
    ///
    /// # Errors
    ///
    /// `NoMemory`.
    fn finish_reply(
        &self,
        alloc: Global,
        store: &mut Self::Store,
        body: Self::Body,
    ) -> Result<Message, NoMemory>
        requires stands { stands self.now store.old }
        requires whole { HasReadReply (reads self.now body) }
        ensures replies { FinishesReply (replying self.now) (reads self.now body) result }
        ensures alike { alike self.now store.old store.new };

    ghost alike_itself: { (r : Self) (s : Self.Store) → alike r s s };

    ghost alike_then: { (r : Self) (s t u : Self.Store) → alike r s t → alike r t u → alike r s u };

    ghost alike_stands: { (r : Self) (s t : Self.Store) → alike r s t → stands r s → stands r t };

    ghost one_asked: { (r : Self) → HasOneAsked (asking r) };

    ghost some_asked: { (r : Self) → HasSomeAsked (asking r) };

    ghost one_reply: { (r : Self) → HasOneReply (replying r) };

    ghost some_reply: { (r : Self) → HasSomeReply (asking r) (replying r) };
}
