//! A session over a door of the tests' own, which keeps what it is asked.
ghost use Rattle.std.specs.Prelude.{◌≡◌, ◌⊎◌, ◌++◌, ◌∷◌, ◌<◌, [], ℕ, List, length, map, IfOk, OnOk, OnErr, pos};
ghost use Rattle.stow_house.specs.Pipelines.{AnswersFront};
ghost use Rattle.stow_model.specs.declared.refusal.Refusal.TheVariants as refusal;
ghost use Rattle.stow_model.specs.Reply as told;
ghost use Rattle.stow_model.specs.Reply.{reply_of};

use crate::making::tenants_of;
use crate::text::{number, row_of};
use std::alloc::{AllocError, Allocator, Global};
use std::marker::Model;
use std::test::Fail;
use stow_house::answer::Answer;
use stow_house::door::Door;
use stow_house::request::Request;
use stow_house::session::Session;
use stow_login::tenants::Tenants;
use stow_model::refusal::Refusal;
use stow_model::reply::Reply;
use stow_model::stream_fault::StreamFault;
use stow_model::words::Words;
use stow_refusing::{Plan, Refusing};
use stow_resp::next::Next;
use stow_testing::lines::words_of;
use stow_testing::replies::is_text;
use stow_testing::tenants::THREE;

/// A door over memory: it keeps each call, and tells the tenant its index.
#[derive(Drop)]
struct Fake<A: Allocator = Global> {
    calls: Vec<(u32, Words<A>), A>,
}

impl<A: Allocator> Model for Fake<A> {
    ghost Value = { List (ℕ × List (List ℕ)) };

    ghost view = { λ f. f.calls.items };
}

impl<A: Allocator + Copy> Fake<A> {
    fn keep(&mut self, alloc: A, tenant: u32, words: &Words<A>) -> Result<(), AllocError>
        ensures ok { OnOk result (self.new ≡ self.old ++ (tenant, words.now) ∷ []) }
        ensures err { OnErr result (self.new ≡ self.old) }
    {
        self.calls.push((tenant, copied(alloc, words)?))?;
        Ok(())
    }
}

impl<A: Allocator + Copy> Door<A> for Fake<A> {
    ghost answers = { λ old tenant words r new.
        ((r ≡ told.Integer (pos tenant)) × (new ≡ old ++ (tenant, words) ∷ []))
        ⊎ ((r ≡ told.Error refusal.OutOfMemory) × (new ≡ old)) };

    fn call(&mut self, alloc: A, tenant: u32, words: &Words<A>) -> Reply<A>
        ensures { ((reply_of result ≡ told.Integer (pos tenant))
            × (self.new ≡ self.old ++ (tenant, words.now) ∷ []))
            ⊎ ((reply_of result ≡ told.Error refusal.OutOfMemory) × (self.new ≡ self.old)) }
    {
        match self.keep(alloc, tenant, words) {
            Ok(()) => Reply::Integer(i64::from(tenant)),
            Err(_) => Reply::Error(Refusal::OutOfMemory),
        }
    }

    fn call_all(
        &mut self,
        alloc: A,
        requests: &[Request<A>],
        more: &mut Vec<Reply<A>, A>,
    ) -> Reply<A>
        requires some { 0 < length requests.now }
        requires none { more.old.items ≡ [] }
        ensures answers { AnswersFront (λ old tenant words r new.
            ((r ≡ told.Integer (pos tenant)) × (new ≡ old ++ (tenant, words) ∷ []))
            ⊎ ((r ≡ told.Error refusal.OutOfMemory) × (new ≡ old))) self.old requests.now
            (reply_of result ∷ map reply_of more.new.items) self.new }
        ensures within { length more.new.items < length requests.now }
    {
        let _only = more;
        let request = &requests[0];
        self.call(alloc, request.tenant, &request.words)
    }
}

fn copied<A: Allocator + Copy>(alloc: A, words: &Words<A>) -> Result<Words<A>, AllocError>
    ensures { IfOk result (λ w. w ≡ words.now) }
{
    let mut copy = Words::new(alloc);
    for index in 0..words.len() {
        copy.push(words.lent().get(index))?;
    }
    Ok(copy)
}

/// What comes next on a connection: the words of a line, or what is named.
fn next_of<A: Allocator + Copy>(alloc: A, line: &str) -> Result<Next<A>, AllocError> {
    Ok(match line {
        "a quoted line" => Next::Quoted,
        "a blank" => Next::Blank,
        "a fault" => Next::Fault(StreamFault::ExpectedBulk),
        _ => Next::Message(words_of(alloc, line)?),
    })
}

/// Whether an answer tells this, or nothing, and ends the connection just where it is to.
fn is_answer<A: Allocator + Copy>(
    alloc: A,
    answer: &Answer<A>,
    want: &str,
    ends: bool,
) -> Result<bool, AllocError> {
    Ok(
        answer.ends == ends
            && match &answer.reply {
                Some(reply) => is_text(alloc, reply, want)?,
                None => want == "nothing",
            },
    )
}

/// A session over a door.
#[derive(Drop)]
struct Seat<A: Allocator + Copy> {
    tenants: Tenants<A>,
    door: Fake<A>,
    session: Session,
}

impl<A: Allocator + Copy> Seat<A> {
    /// Nobody is logged in, and nothing was asked.
    fn new(alloc: A, global: Global) -> Result<Seat<A>, AllocError> {
        Ok(Seat {
            tenants: tenants_of(alloc, global, THREE)?,
            door: Fake {
                calls: Vec::new(alloc),
            },
            session: Session::new(),
        })
    }

    /// What the session answers to what comes next.
    fn serve(&mut self, alloc: A, next: Next<A>) -> Answer<A> {
        self.session
            .serve(alloc, &self.tenants, &mut self.door, next)
    }

    /// Whether a row's line is told what the row says, and then ends the connection just where a word says so and the door has
    /// had so many calls; and whether every request for memory is refused to it.
    fn is_row_told<B: Allocator>(
        &mut self,
        alloc: A,
        heap: &Refusing<B>,
        (row, plan): (&'static str, Plan),
    ) -> Result<bool, AllocError> {
        let (line, rest) = row_of(row);
        let (want, rest) = row_of(rest);
        let (calls, end) = row_of(rest);
        let next = next_of(alloc, line)?;
        heap.set(plan);
        let answer = self.serve(alloc, next);
        heap.set(Plan::Grant);
        Ok(
            self.door.calls.len() == number(calls) as usize
                && is_answer(alloc, &answer, want, end == "end")?,
        )
    }

    /// The first row of a table that isn't so.
    fn first_other<B: Allocator>(
        &mut self,
        alloc: A,
        heap: &Refusing<B>,
        (table, plan): (&'static str, Plan),
    ) -> Result<Option<&'static str>, AllocError> {
        for row in table.lines() {
            if !self.is_row_told(alloc, heap, (row, plan))? {
                return Ok(Some(row));
            }
        }
        Ok(None)
    }
}

/// What comes on one connection: what it is told, how many calls the door has had after it, and whether it ends.
const SERVED: &str = "a quoted line => NOAUTH Authentication required. => 0
GET k => NOAUTH Authentication required. => 0
FOO => NOAUTH Authentication required. => 0
AUTH ann c => WRONGPASS invalid name or password => 0
GET k => NOAUTH Authentication required. => 0
AUTH ann bc => OK => 0
SET k v => :1 => 1
AUTH ben bc => WRONGPASS invalid name or password => 1
GET k => :1 => 2
auth ben c => OK => 2
GET k => :2 => 3
AUTH ann c => WRONGPASS invalid name or password => 3
AUTH ann => ERR wrong number of arguments => 3
QUIT now => ERR wrong number of arguments => 3
FOO => :2 => 4
a quoted line => ERR quotes in an inline request are not served => 4
a blank => nothing => 4
a fault => expected '$' => 4 => end
QUIT => OK => 4 => end";

/// What a session answers to where every request for memory is refused.
const WITHOUT_MEMORY: &str = "GET k => NOAUTH Authentication required. => 0
AUTH ann c => WRONGPASS invalid name or password => 0
AUTH ann bc => OK => 0
GET k => OOM memory was refused => 0
QUIT => OK => 0 => end";

/// The first row of a table that a new session tells otherwise.
fn told_otherwise<A: Allocator + Copy, B: Allocator>(
    heap: &Refusing<B>,
    (alloc, global): (A, Global),
    table: (&'static str, Plan),
) -> Result<Option<&'static str>, AllocError> {
    Seat::new(alloc, global)?.first_other(alloc, heap, table)
}

#[test]
fn a_door_is_asked_only_after_a_login(rt: HostRuntime) -> Result<(), Fail> {
    let heap = Refusing::new(rt.alloc());
    let other = told_otherwise(&heap, (&heap, rt.alloc()), (SERVED, Plan::Grant))?;
    assert!(rt; other.is_none(), "{other:?}");
    Ok(())
}

// Only the door asks for memory: a login, a refusal and a quit are told with none.
#[test]
fn a_session_asks_for_no_memory(rt: HostRuntime) -> Result<(), Fail> {
    let heap = Refusing::new(rt.alloc());
    let table = (WITHOUT_MEMORY, Plan::RefuseAll);
    let other = told_otherwise(&heap, (&heap, rt.alloc()), table)?;
    assert!(rt; other.is_none(), "{other:?}");
    Ok(())
}
