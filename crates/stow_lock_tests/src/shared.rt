//! What no clause says: that the calls succeed where there is memory, what two seats leave, and each request for
//! memory refused in turn.
ghost use Rattle.std.specs.Prelude.{◌≡◌, IfOk};
ghost use Rattle.stow_workers.specs.StowCore.State.{IsNewCore};

use std::alloc::{AllocError, Allocator, Global};
use std::process::Abort;
use std::sync::{Arc, Wait};
use std::test::Fail;
use stow_login::tenants::Tenants;
use stow_model::refusal::Refusal;
use stow_model::reply::Reply;
use stow_model::simple_string::SimpleString;
use stow_model::words::Words;
use stow_plain::plain_request::PlainRequest;
use stow_plain::plain_store::PlainStore;
use stow_refusing::{Plan, Refusing};
use stow_testing::lines::words_of;
use stow_testing::tenants::{QUOTA, THREE};
use stow_workers::stow_core::Core;
use stow_workers::stow_house::door::Door;
use stow_workers::stow_house::request::Request;
use stow_workers::stow_node::installed::Installed;
use stow_workers::stow_shared::closed::Closed;
use stow_workers::stow_shared::comparing::same_reply;
use stow_workers::stow_shared::copying::copied_words;
use stow_workers::stow_shared::desk::Desk;
use stow_workers::stow_shared::entry::Entry;
use stow_workers::stow_shared::journal::Journal;
use stow_workers::stow_shared::kept::Kept;
use stow_workers::stow_shared::open_fault::OpenFault;
use stow_workers::stow_shared::seat::Seat;
use stow_workers::stow_shared::shared::Shared;
use stow_workers::stow_shared::step::Step;
use stow_workers::stow_shared::unkept::Unkept;
use stow_workers::stow_tree::tree_shape::TreeShape;

const OK: Reply = Reply::Simple(SimpleString::Ok);

const STRANGER: Reply = Reply::Error(Refusal::NotAuthenticated);

/// A core of the three tenants; their file's table is kept in `global` for as long as it is read.
fn new_core<A: Allocator + Copy>(alloc: A, global: Global) -> Result<Core<A>, AllocError>
    ensures { IfOk result IsNewCore }
{
    let tenants = Tenants::read(alloc, global, THREE).map_err(|_| AllocError)?;
    Core::new(alloc, Arc::new(alloc, tenants)?, TreeShape::SMALLEST).map_err(|_| AllocError)
}

/// A lock with so many seats.
fn opened<R: Abort, J: Journal, A: Allocator + Copy>(
    rt: &R,
    alloc: A,
    global: Global,
    seats: u32,
) -> (Shared<J, A>, Vec<Seat<J, A>, A>) {
    let core = new_core(alloc, global).expect(rt, "memory");
    match Shared::open(alloc, core, seats) {
        Ok(opened) => opened,
        Err(_) => panic!(rt; "not opened"),
    }
}

/// A lock with one seat.
pub(crate) fn opened_for_one<R: Abort, J: Journal, A: Allocator + Copy>(
    rt: &R,
    alloc: A,
    global: Global,
) -> (Shared<J, A>, Seat<J, A>) {
    let (shared, mut seats) = opened(rt, alloc, global, 1);
    (shared, seats.pop().expect(rt, "a seat"))
}

/// Whether these are the words of a line.
fn are_words_of<A: Allocator>(words: &Words<A>, line: &str) -> bool {
    let mut left = words.lent();
    for word in line.split_whitespace() {
        match left.split_first() {
            Some((found, later)) if found == word.as_bytes() => left = later,
            _ => return false,
        }
    }
    left.is_empty()
}

fn is_refusal<A: Allocator>(reply: &Reply<A>, want: Refusal) -> bool {
    matches!(reply, Reply::Error(refusal) if *refusal == want)
}

/// What a tenant is told over the lock.
fn told<R: Wait + Abort, J: Journal, A: Allocator + Copy>(
    rt: &R,
    alloc: A,
    shared: &Shared<J, A>,
    seat: &mut Seat<J, A>,
    tenant: u32,
    line: &str,
) -> Reply<A> {
    let words = words_of(alloc, line).expect(rt, "memory");
    shared.call(rt, alloc, seat, tenant, &words)
}

/// What is left where one seat is handed back, if it belongs to the lock.
fn closed_by_one<R: Abort, J: Journal, A: Allocator + Copy>(
    rt: &R,
    alloc: A,
    shared: Shared<J, A>,
    seat: Seat<J, A>,
) -> Closed<J, A> {
    let mut seats = Vec::new(alloc);
    match seats.push(seat) {
        Ok(_) => closed(rt, shared, seats),
        Err(_) => panic!(rt; "memory"),
    }
}

/// The same, with every request for memory refused once the seat is handed back.
fn closed_unaided<'h, R: Abort, J: Journal, B: Allocator>(
    rt: &R,
    heap: &'h Refusing<B>,
    shared: Shared<J, &'h Refusing<B>>,
    seat: Seat<J, &'h Refusing<B>>,
) -> Closed<J, &'h Refusing<B>> {
    let mut seats = Vec::new(heap);
    if seats.push(seat).is_err() {
        panic!(rt; "memory");
    }
    heap.set(Plan::RefuseAll);
    let closed = closed(rt, shared, seats);
    assert_eq!(rt; heap.asked(), 0);
    heap.set(Plan::Grant);
    closed
}

/// What is left, if all that is handed back belongs together.
fn closed<R: Abort, J: Journal, A: Allocator + Copy>(
    rt: &R,
    shared: Shared<J, A>,
    seats: Vec<Seat<J, A>, A>,
) -> Closed<J, A> {
    match shared.close(seats) {
        Ok(closed) => closed,
        Err(_) => panic!(rt; "not closed"),
    }
}

/// Whether so many seats are refused, and the core comes back whole.
fn gives_core_back<R: Abort, A: Allocator + Copy>(
    rt: &R,
    alloc: A,
    global: Global,
    seats: u32,
) -> bool {
    let core = new_core(alloc, global).expect(rt, "memory");
    match Shared::<Kept, _>::open(alloc, core, seats) {
        Ok(_) => false,
        Err((core, fault)) => fault.number() == 1 && core.tenants().count() == 3,
    }
}

/// Whether a lock with so many seats opens and closes.
fn opens<R: Abort, A: Allocator + Copy>(rt: &R, alloc: A, global: Global, seats: u32) -> bool {
    let (shared, handed) = opened::<_, Kept, A>(rt, alloc, global, seats);
    let count = handed.len();
    let tenants = shared.tenants().count();
    let closed = closed(rt, shared, handed);
    count == seats as usize && tenants == 3 && closed.entries().is_empty()
}

#[test]
fn seats_are_1_to_1024(rt: HostRuntime) {
    assert!(rt; gives_core_back(&rt, rt.alloc(), rt.alloc(), 0));
    assert!(rt; gives_core_back(&rt, rt.alloc(), rt.alloc(), 1_025));
    assert!(rt; opens(&rt, rt.alloc(), rt.alloc(), 1));
    assert!(rt; opens(&rt, rt.alloc(), rt.alloc(), 1_024));
}

#[test]
fn a_missing_seat_gives_all_back(rt: HostRuntime) {
    let alloc: Global = rt.alloc();
    let (shared, mut seats) = opened::<_, Kept, Global>(&rt, alloc, alloc, 3);
    let missing = seats.pop().expect(&rt, "a seat");
    match shared.close(seats) {
        Ok(_) => panic!(rt; "closed with a seat missing"),
        Err((shared, mut seats)) => {
            assert_eq!(rt; seats.len(), 2);
            seats.push(missing).expect(&rt, "memory");
            assert_eq!(rt; closed(&rt, shared, seats).entries().len(), 0);
        }
    }
}

/// Whether an entry is seat 1's, of this call with this reply.
fn is_call(entry: &Entry, tenant: u32, line: &str, want: &Reply) -> bool {
    match &entry.step {
        Step::Call(index, words, reply) => {
            entry.seat == 1
                && *index == tenant
                && are_words_of(words, line)
                && same_reply(reply, want)
        }
        Step::Resize(_) | Step::Quota(_, _) | Step::Plan(_) | Step::Install(_) => false,
    }
}

/// Plans a flush, merges its job, and hands the result in. Whether that came into the tree.
fn flushes<R: Wait, J: Journal, A: Allocator + Copy>(
    rt: &R,
    alloc: A,
    shared: &Shared<J, A>,
    seat: &mut Seat<J, A>,
) -> bool {
    let Ok(Some(job)) = shared.plan(rt, alloc, seat) else {
        return false;
    };
    let Ok(merge) = job.merge(alloc) else {
        return false;
    };
    matches!(shared.install(rt, alloc, seat, merge), Ok(Installed::Done))
}

// A call, a flush that is planned and one that is installed, a change of the cache's size, and a call of an index that is no
// tenant's: five entries.
#[test]
fn one_seat_has_its_entries(rt: HostRuntime) {
    let alloc: Global = rt.alloc();
    let (shared, mut seat) = opened_for_one::<_, Kept, Global>(&rt, alloc, alloc);
    let set = told(&rt, alloc, &shared, &mut seat, 1, "SET a x");
    assert!(rt; same_reply(&set, &OK));
    assert!(rt; flushes(&rt, alloc, &shared, &mut seat));
    assert!(rt; shared.resize(&rt, &mut seat, 5).is_ok());
    let words = words_of(alloc, "GET a").expect(&rt, "memory");
    let mut desk = Desk {
        rt: &rt,
        shared: &shared,
        seat: &mut seat,
    };
    assert!(rt; same_reply(&desk.call(alloc, 4, &words), &STRANGER));
    assert!(rt; seat.number() == 1 && seat.receipts().len() == 5 && seat.refused() == 0);
    let closed = closed_by_one(&rt, alloc, shared, seat);
    assert_eq!(rt; closed.core().tenants().count(), 3);
    let entries = closed.entries();
    assert_eq!(rt; entries.len(), 5);
    assert!(rt; is_call(&entries[0], 1, "SET a x", &OK));
    assert!(rt; entries[1].seat == 1 && matches!(&entries[1].step, Step::Plan(true)));
    assert!(rt; entries[2].seat == 1 && matches!(&entries[2].step, Step::Install(Installed::Done)));
    assert!(rt; entries[3].seat == 1 && matches!(&entries[3].step, Step::Resize(5)));
    assert!(rt; is_call(&entries[4], 4, "GET a", &STRANGER));
}

// As many words as there may be: a request of 1,024 has one entry and one receipt.
#[test]
fn a_call_may_have_many_words(rt: HostRuntime) -> Result<(), Fail> {
    let alloc: Global = rt.alloc();
    let (shared, mut seat) = opened_for_one::<_, Kept, Global>(&rt, alloc, alloc);
    let mut line = String::from_str(alloc, "EXISTS")?;
    line.push_str(" a".repeat(alloc, 1_023)?.as_str())?;
    let (line, want) = (line.as_str(), Reply::Integer(1_023));
    told(&rt, alloc, &shared, &mut seat, 1, "SET a x");
    let count = told(&rt, alloc, &shared, &mut seat, 1, line);
    assert!(rt; same_reply(&count, &want) && seat.receipts().len() == 2);
    assert!(rt; is_call(&seat.receipts()[1], 1, line, &want));
    let closed = closed_by_one(&rt, alloc, shared, seat);
    let entries = closed.entries();
    assert!(rt; entries.len() == 2 && is_call(&entries[1], 1, line, &want));
    Ok(())
}

const LINES: [&str; 6] = [
    "SET a x",
    "APPEND a y",
    "INCR n",
    "RANGE a z 9",
    "DEL a b",
    "GET n",
];

/// Makes a tenant's calls, 20 times over.
fn calls<A: Allocator + Copy, R: Wait + Abort>(
    rt: &R,
    alloc: A,
    shared: &Shared<Kept, A>,
    seat: &mut Seat<Kept, A>,
    tenant: u32,
) {
    for _ in 0..20 {
        for line in LINES {
            told(rt, alloc, shared, seat, tenant, line);
        }
    }
}

/// What a tenant's own store, alone, tells to a call.
fn told_alone<A: Allocator + Copy, R: Abort>(
    rt: &R,
    alloc: A,
    alone: &mut PlainStore<A>,
    words: &Words<A>,
) -> Reply<A> {
    let request = PlainRequest {
        words: copied_words(alloc, words).expect(rt, "memory"),
        is_refused: false,
    };
    alone.step(alloc, &request).expect(rt, "memory")
}

/// How many of the entries are a tenant's; each was told what the tenant's own store, alone, tells.
fn own_entries<A: Allocator + Copy, R: Abort>(
    rt: &R,
    alloc: A,
    entries: &[Entry<A>],
    tenant: u32,
) -> usize {
    let mut alone = PlainStore::new(alloc, QUOTA);
    let mut count: usize = 0;
    for entry in entries {
        if let Step::Call(index, words, reply) = &entry.step {
            if *index == tenant {
                assert!(rt; same_reply(reply, &told_alone(rt, alloc, &mut alone, words)));
                count = count.saturating_add(1);
            }
        }
    }
    count
}

/// Wants of a lock with two seats, from which two tenants call in turn, a journal of what each is told alone.
fn leave_a_legal_journal<A: Allocator + Copy, R: Wait + Abort>(rt: &R, alloc: A, global: Global) {
    let (shared, mut seats) = opened::<_, Kept, A>(rt, alloc, global, 2);
    let mut second = seats.pop().expect(rt, "a seat");
    let mut first = seats.pop().expect(rt, "a seat");
    calls(rt, alloc, &shared, &mut first, 1);
    calls(rt, alloc, &shared, &mut second, 2);
    seats.push(second).expect(rt, "memory");
    seats.push(first).expect(rt, "memory");
    let closed = closed(rt, shared, seats);
    assert_eq!(rt; closed.entries().len(), 240);
    assert_eq!(rt; own_entries(rt, alloc, closed.entries(), 1), 120);
    assert_eq!(rt; own_entries(rt, alloc, closed.entries(), 2), 120);
}

#[test]
fn two_seats_leave_a_legal_journal(rt: HostRuntime) {
    leave_a_legal_journal(&rt, rt.alloc(), rt.alloc());
}

// Each request for memory of `open` is refused in turn: the core comes back, and opens once memory is there.
#[test]
fn opening_withstands_each_refusal(rt: HostRuntime) {
    let heap = Refusing::new(rt.alloc());
    let mut refusals: u64 = 0;
    for at in 0..100u64 {
        let core = new_core(&heap, rt.alloc()).expect(&rt, "memory");
        heap.set(Plan::RefuseAt(at));
        let result = Shared::<Kept, _>::open(&heap, core, 3);
        let asked = heap.asked();
        heap.set(Plan::Grant);
        match result {
            Ok(_) => {
                assert!(rt; asked <= at);
                break;
            }
            Err((core, fault)) => {
                assert!(rt; fault == OpenFault::OutOfMemory && fault.number() == 2);
                assert!(rt; Shared::<Unkept, _>::open(&heap, core, 3).is_ok());
            }
        }
        refusals = at + 1;
    }
    assert!(rt; refusals >= 1, "{refusals} refusals");
}

/// Whether this request for memory is refused to a call that follows another. The call then leaves no entry and no
/// receipt, is counted, and changes no store.
fn withstands<R: Wait + Abort, B: Allocator>(
    rt: &R,
    heap: &Refusing<B>,
    global: Global,
    at: u64,
) -> bool {
    let (shared, mut seat) = opened_for_one::<_, Kept, _>(rt, heap, global);
    told(rt, heap, &shared, &mut seat, 1, "SET a old");
    let words = words_of(heap, "SET b new").expect(rt, "memory");
    heap.set(Plan::RefuseAt(at));
    let reply = shared.call(rt, heap, &mut seat, 1, &words);
    let asked = heap.asked();
    heap.set(Plan::Grant);
    if asked <= at {
        return false;
    }
    assert!(rt; is_refusal(&reply, Refusal::OutOfMemory), "request {at}");
    assert!(rt;
        seat.refused() == 1 && seat.receipts().len() == 1,
        "request {at}"
    );
    let missing = told(rt, heap, &shared, &mut seat, 1, "GET b");
    assert!(rt; matches!(missing, Reply::Null), "request {at}");
    assert_eq!(rt; closed_unaided(rt, heap, shared, seat).entries().len(), 2);
    true
}

#[test]
fn calls_withstand_each_refusal(rt: HostRuntime) {
    let heap = Refusing::new(rt.alloc());
    let mut refusals: u64 = 0;
    for at in 0..100u64 {
        if !withstands(&rt, &heap, rt.alloc(), at) {
            break;
        }
        refusals = at + 1;
    }
    assert!(rt; refusals >= 4, "{refusals} refusals");
}

/// Whether this request for memory is refused to a flush that follows a call. What was refused has no entry and no receipt, no store
/// changes, and the flush made again comes in.
fn flush_withstands<R: Wait + Abort, B: Allocator>(
    rt: &R,
    heap: &Refusing<B>,
    global: Global,
    at: u64,
) -> bool {
    let (shared, mut seat) = opened_for_one::<_, Kept, _>(rt, heap, global);
    told(rt, heap, &shared, &mut seat, 1, "SET a x");
    heap.set(Plan::RefuseAt(at));
    let came = flushes(rt, heap, &shared, &mut seat);
    let asked = heap.asked();
    heap.set(Plan::Grant);
    if asked <= at {
        return false;
    }
    assert!(rt; !came, "request {at}");
    let told_of = seat.receipts().len();
    assert!(rt; told_of == 1 || told_of == 2, "request {at}");
    assert!(rt; flushes(rt, heap, &shared, &mut seat), "request {at}");
    let found = told(rt, heap, &shared, &mut seat, 1, "STRLEN a");
    assert!(rt; matches!(found, Reply::Integer(1)), "request {at}");
    assert_eq!(rt;
        closed_unaided(rt, heap, shared, seat).entries().len(),
        told_of.saturating_add(3)
    );
    true
}

#[test]
fn flushes_withstand_each_refusal(rt: HostRuntime) {
    let heap = Refusing::new(rt.alloc());
    let mut refusals: u64 = 0;
    for at in 0..100u64 {
        if !flush_withstands(&rt, &heap, rt.alloc(), at) {
            break;
        }
        refusals = at + 1;
    }
    assert!(rt; refusals >= 8, "{refusals} refusals");
}

/// A step that is no tenant's call and no flush.
#[derive(Clone, Copy)]
enum Order {
    /// A quota of 0 for the first tenant.
    Quota,
    /// A cache of 5 leaves.
    Resize,
}

impl Order {
    /// Whether the order is carried out: it fails for want of memory alone.
    fn is_done<R: Wait, J: Journal, A: Allocator + Copy>(
        self,
        rt: &R,
        shared: &Shared<J, A>,
        seat: &mut Seat<J, A>,
    ) -> bool {
        match self {
            Order::Quota => shared.set_quota(rt, seat, 1, 0).is_ok(),
            Order::Resize => shared.resize(rt, seat, 5).is_ok(),
        }
    }

    /// Whether the step is of this order.
    fn is_of<A: Allocator>(self, step: &Step<A>) -> bool {
        match self {
            Order::Quota => matches!(step, Step::Quota(1, 0)),
            Order::Resize => matches!(step, Step::Resize(5)),
        }
    }

    /// Whether a SET that follows the order is told this.
    fn is_followed_by<A: Allocator>(self, reply: &Reply<A>) -> bool {
        match self {
            Order::Quota => is_refusal(reply, Refusal::QuotaExceeded),
            Order::Resize => matches!(reply, Reply::Simple(SimpleString::Ok)),
        }
    }
}

/// Whether this request for memory is refused to an order. It then has no entry and no receipt, and made again it is carried out.
fn order_withstands<R: Wait + Abort, B: Allocator>(
    rt: &R,
    heap: &Refusing<B>,
    global: Global,
    order: Order,
    at: u64,
) -> bool {
    let (shared, mut seat) = opened_for_one::<_, Kept, _>(rt, heap, global);
    heap.set(Plan::RefuseAt(at));
    let is_done = order.is_done(rt, &shared, &mut seat);
    let asked = heap.asked();
    heap.set(Plan::Grant);
    if asked <= at {
        return false;
    }
    assert!(rt; !is_done && seat.receipts().is_empty(), "request {at}");
    assert!(rt; order.is_done(rt, &shared, &mut seat), "request {at}");
    let reply = told(rt, heap, &shared, &mut seat, 1, "SET a x");
    assert!(rt; order.is_followed_by(&reply), "request {at}");
    let closed = closed_unaided(rt, heap, shared, seat);
    let entries = closed.entries();
    assert_eq!(rt; entries.len(), 2);
    assert!(rt; order.is_of(&entries[0].step), "request {at}");
    true
}

/// How many requests for memory an order makes, each of which is refused.
fn refusals_of<R: Wait + Abort, B: Allocator>(
    rt: &R,
    heap: &Refusing<B>,
    global: Global,
    order: Order,
) -> u64 {
    for at in 0..100u64 {
        if !order_withstands(rt, heap, global, order, at) {
            return at;
        }
    }
    0
}

#[test]
fn orders_withstand_each_refusal(rt: HostRuntime) {
    let heap = Refusing::new(rt.alloc());
    for order in [Order::Quota, Order::Resize] {
        let refusals = refusals_of(&rt, &heap, rt.alloc(), order);
        assert!(rt; refusals >= 2, "{refusals} refusals");
    }
}

/// Whether a call under the lock is told what the core alone tells, and asks for as much memory.
fn asks_as_alone<A: Allocator + Copy, B: Allocator, R: Wait + Abort>(
    rt: &R,
    (heap, alloc): (&Refusing<B>, A),
    core: &mut Core<A>,
    (shared, seat): (&Shared<Unkept, A>, &mut Seat<Unkept, A>),
    line: &str,
) -> bool {
    let words = words_of(alloc, line).expect(rt, "memory");
    heap.set(Plan::Grant);
    let alone = core.call(alloc, 1, &words);
    let needed = heap.asked();
    heap.set(Plan::Grant);
    let reply = shared.call(rt, alloc, seat, 1, &words);
    heap.asked() == needed && same_reply(&alone, &reply)
}

/// Whether the same holds of each line.
fn all_ask_as_alone<A: Allocator + Copy, B: Allocator, R: Wait + Abort>(
    rt: &R,
    (heap, alloc): (&Refusing<B>, A),
    core: &mut Core<A>,
    shared: &Shared<Unkept, A>,
    seat: &mut Seat<Unkept, A>,
) -> bool {
    for line in LINES {
        if !asks_as_alone(rt, (heap, alloc), core, (shared, seat), line) {
            return false;
        }
    }
    true
}

/// Whether a lock without a journal is resized without memory, and no seat of it holds a receipt.
fn holds_nothing<A: Allocator + Copy, B: Allocator, R: Wait + Abort>(
    rt: &R,
    (heap, alloc): (&Refusing<B>, A),
    shared: Shared<Unkept, A>,
    mut seat: Seat<Unkept, A>,
) -> bool {
    heap.set(Plan::RefuseAll);
    let resized = shared.resize(rt, &mut seat, 65_536).is_ok();
    let has_none = seat.receipts().is_empty();
    heap.set(Plan::Grant);
    let closed = closed_by_one(rt, alloc, shared, seat);
    resized && has_none && closed.entries().is_empty()
}

/// Whether a lock without a journal takes as much memory as a core.
fn takes_no_more<A: Allocator + Copy, B: Allocator, R: Wait + Abort>(
    rt: &R,
    heap: &Refusing<B>,
    alloc: A,
    global: Global,
) -> bool {
    let mut core = new_core(alloc, global).expect(rt, "memory");
    let (shared, mut seat) = opened_for_one::<_, Unkept, _>(rt, alloc, global);
    let asks = all_ask_as_alone(rt, (heap, alloc), &mut core, &shared, &mut seat);
    let holds = holds_nothing(rt, (heap, alloc), shared, seat);
    asks && holds
}

// A lock that keeps no journal asks for no memory beside the core's own, and its seats hold nothing.
#[test]
fn unkept_calls_ask_for_no_more(rt: HostRuntime) {
    let heap = Refusing::new(rt.alloc());
    assert!(rt; takes_no_more(&rt, &heap, &heap, rt.alloc()));
}

fn sent<T: Send>(x: T) -> T
    ensures { result ≡ x }
{
    x
}

#[test]
fn entries_may_cross_threads(rt: HostRuntime) {
    let entry = Entry::<Global> {
        seat: 1,
        step: Step::Resize(5),
    };
    assert!(rt; sent(entry).seat == 1);
}

/// An addition to `n`.
fn addition<A: Allocator + Copy>(alloc: A) -> Result<Request<A>, AllocError> {
    let words = words_of(alloc, "INCR n")?;
    Ok(Request { tenant: 1, words })
}

/// A SET of `v` to a long value, and a GET of it.
fn long_ones<A: Allocator + Copy>(alloc: A) -> Result<(Request<A>, Request<A>), AllocError> {
    let value = vec![in alloc; b'v'; 5_000]?;
    let mut words = words_of(alloc, "SET v")?;
    words.push(value.as_slice())?;
    let set = Request { tenant: 1, words };
    let words = words_of(alloc, "GET v")?;
    Ok((set, Request { tenant: 1, words }))
}

/// An addition, a long value that is set and read, and two additions.
fn pipelined<A: Allocator + Copy>(alloc: A) -> Result<Vec<Request<A>, A>, AllocError> {
    let mut requests = Vec::new(alloc);
    let (set, get) = long_ones(alloc)?;
    requests.push(addition(alloc)?)?;
    requests.push(set)?;
    requests.push(get)?;
    requests.push(addition(alloc)?)?;
    requests.push(addition(alloc)?)?;
    Ok(requests)
}

// Five requests: a hold ends behind the long value, or where there is no room for more replies, and each has its receipt.
#[test]
fn requests_are_answered_together(rt: HostRuntime) -> Result<(), Fail> {
    let alloc: Global = rt.alloc();
    let (shared, mut seat) = opened_for_one::<_, Kept, Global>(&rt, alloc, alloc);
    let requests = pipelined(alloc)?;
    assert_eq!(rt; requests.len(), 5);
    let mut more = Vec::with_capacity(alloc, 8)?;
    let first = shared.call_all(&rt, alloc, &mut seat, requests.as_slice(), &mut more);
    assert!(rt; same_reply(&first, &Reply::Integer(1)) && more.len() == 2);
    assert!(rt; same_reply(&more[0], &OK));
    assert!(rt; matches!(&more[1], Reply::Bulk(value) if value.len() == 5_000));
    let mut none = Vec::new(alloc);
    let next = shared.call_all(&rt, alloc, &mut seat, &requests.as_slice()[3..], &mut none);
    assert!(rt; same_reply(&next, &Reply::Integer(2)) && none.is_empty());
    let mut none = Vec::new(alloc);
    let last = shared.call_all(&rt, alloc, &mut seat, &requests.as_slice()[4..], &mut none);
    assert!(rt; same_reply(&last, &Reply::Integer(3)));
    assert_eq!(rt; seat.receipts().len(), 5);
    Ok(())
}

/// An addition, a request that asks for many rows, and an addition.
fn many_rows_amid<A: Allocator + Copy>(alloc: A) -> Result<Vec<Request<A>, A>, AllocError> {
    let mut requests = Vec::new(alloc);
    requests.push(addition(alloc)?)?;
    let words = words_of(alloc, "RANGE a z 100")?;
    requests.push(Request { tenant: 1, words })?;
    requests.push(addition(alloc)?)?;
    Ok(requests)
}

// A hold ends before a request that asks for many rows, since a turn is taken first, and behind its reply.
#[test]
fn a_request_for_many_rows_has_a_hold_of_its_own(rt: HostRuntime) -> Result<(), Fail> {
    let alloc: Global = rt.alloc();
    let (shared, mut seat) = opened_for_one::<_, Kept, Global>(&rt, alloc, alloc);
    let requests = many_rows_amid(alloc)?;
    assert_eq!(rt; requests.len(), 3);
    let mut more = Vec::with_capacity(alloc, 8)?;
    let first = shared.call_all(&rt, alloc, &mut seat, requests.as_slice(), &mut more);
    assert!(rt; same_reply(&first, &Reply::Integer(1)) && more.is_empty());
    let mut none = Vec::with_capacity(alloc, 8)?;
    let rows = shared.call_all(&rt, alloc, &mut seat, &requests.as_slice()[1..], &mut none);
    assert!(rt; matches!(&rows, Reply::Array(told) if told.len() == 2) && none.is_empty());
    let mut none = Vec::with_capacity(alloc, 8)?;
    let last = shared.call_all(&rt, alloc, &mut seat, &requests.as_slice()[2..], &mut none);
    assert!(rt; same_reply(&last, &Reply::Integer(2)));
    assert_eq!(rt; seat.receipts().len(), 3);
    Ok(())
}
