//! Runs of a house over two tenants' connections.
use crate::events::acts::{ACTS, Act, acts_of, events_of, handed_over, random_acts, with_flushes};
use crate::events::clients::{are_kept, are_told_as_alone, is_told};
use crate::making::{index_of, new_house, ran, run};
use std::alloc::{AllocError, Allocator, Global};
use std::test::Fail;
use stow_house::outputs::Outputs;
use stow_house::run_fault::RunFault;
use stow_model::event::Event;
use stow_refusing::{Plan, Refusing};
use stow_testing::tenants::{OTHERS, THREE};

/// What a new house of a file's tenants tells to acts, to which no memory is refused.
pub(crate) fn run_of<A: Allocator + Copy>(
    alloc: A,
    global: Global,
    text: &str,
    acts: &[Act],
) -> Result<Outputs<A>, AllocError> {
    ran(alloc, global, text, events_of(alloc, acts)?.as_slice())
}

/// Whether the connections are told this.
fn are_told<A: Allocator + Copy>(
    alloc: A,
    outputs: &Outputs<A>,
    first: &[u8],
    second: &[u8],
) -> Result<bool, AllocError> {
    Ok(is_told(alloc, outputs, 1, first)? && is_told(alloc, outputs, 2, second)?)
}

const ANN_TOLD: &[u8] = b"-NOAUTH Authentication required.\r\n+OK\r\n+OK\r\n$1\r\nA\r\n$1\r\nA\r\n";

const BEN_TOLD: &[u8] = b"+OK\r\n+OK\r\n:1\r\n$-1\r\n";

/// Whether two tenants with the same key are told their own rows.
fn are_own_rows<A: Allocator + Copy>(alloc: A, outputs: &Outputs<A>) -> Result<bool, AllocError> {
    Ok(
        outputs.told().len() == 9
            && outputs.marks().len() == 22
            && are_told_as_alone(alloc, &ACTS, outputs)?
            && are_told(alloc, outputs, ANN_TOLD, BEN_TOLD)?,
    )
}

/// Whether those of a new house are.
fn keep_own_rows<A: Allocator + Copy>(alloc: A, global: Global) -> Result<bool, AllocError> {
    are_own_rows(alloc, &run_of(alloc, global, THREE, &ACTS)?)
}

#[test]
fn two_tenants_keep_their_own_rows(rt: HostRuntime) -> Result<(), Fail> {
    assert!(rt; keep_own_rows(rt.alloc(), rt.alloc())?);
    Ok(())
}

/// Whether acts that a new house is run on, none of which is refused memory, are told what each tenant's own run tells, and so
/// many replies.
pub(crate) fn are_answered_as_alone<A: Allocator + Copy>(
    alloc: A,
    global: Global,
    acts: &[Act],
    replies: usize,
) -> Result<bool, AllocError> {
    let outputs = run_of(alloc, global, THREE, acts)?;
    let are_enough = outputs.told().len() > replies && are_kept(outputs.marks());
    Ok(are_told_as_alone(alloc, acts, &outputs)? && are_enough)
}

#[test]
fn random_requests_are_answered_as_alone(rt: HostRuntime) -> Result<(), Fail> {
    let acts = random_acts(rt.alloc(), 8_000)?;
    assert!(rt; are_answered_as_alone(rt.alloc(), rt.alloc(), acts.as_slice(), 3_600)?);
    let flushed = with_flushes(rt.alloc(), acts.as_slice())?;
    assert!(rt; are_answered_as_alone(rt.alloc(), rt.alloc(), flushed.as_slice(), 3_600)?);
    Ok(())
}

const FIRST_TOLD: &[u8] = b"+OK\r\n+OK\r\n+OK\r\n$-1\r\n+OK\r\n\
-WRONGPASS invalid name or password\r\n$3\r\nben\r\n\
-ERR wrong number of arguments\r\n$3\r\nben\r\n+OK\r\n$3\r\nann\r\n";

const SECOND_TOLD: &[u8] = b"+OK\r\n$3\r\nann\r\n:1\r\n";

/// Whether a connection that changes hands is told each tenant's rows in turn.
fn changes_hands<A: Allocator + Copy>(alloc: A, global: Global) -> Result<bool, AllocError> {
    let acts = handed_over(alloc)?;
    let outputs = run_of(alloc, global, THREE, acts.as_slice())?;
    are_told(alloc, &outputs, FIRST_TOLD, SECOND_TOLD)
}

// One connection changes hands, and one tenant is served on two connections: a login that is accepted changes
// who is served from the next request on, and one that fails changes nothing.
#[test]
fn connections_change_hands(rt: HostRuntime) -> Result<(), Fail> {
    assert!(rt; changes_hands(rt.alloc(), rt.alloc())?);
    Ok(())
}

/// Whether ann, whose index is another in the second file, is told the same by both files' houses.
fn is_told_the_same<A: Allocator + Copy>(alloc: A, global: Global) -> Result<bool, AllocError> {
    let own = acts_of(alloc, 1, &ACTS)?;
    let outputs = run_of(alloc, global, OTHERS, own.as_slice())?;
    are_told(alloc, &outputs, ANN_TOLD, b"")
}

// Ann's requests among another's, and alone in a house of other tenants, in which her index is another: she is
// told the same.
#[test]
fn a_tenant_is_told_the_same_in_another_house(rt: HostRuntime) -> Result<(), Fail> {
    assert!(rt; is_told_the_same(rt.alloc(), rt.alloc())?);
    assert_eq!(rt; index_of(rt.alloc(), rt.alloc(), THREE, b"ann")?, Some(1));
    assert_eq!(rt; index_of(rt.alloc(), rt.alloc(), OTHERS, b"ann")?, Some(2));
    Ok(())
}

/// Whether what a run told is what each tenant's own run tells; and whether it went to the end just where it is to.
fn is_run_right<A: Allocator + Copy>(
    alloc: A,
    acts: &[Act],
    ended: &Result<Outputs<A>, RunFault<A>>,
    is_whole: bool,
) -> Result<bool, AllocError> {
    match ended {
        Ok(outputs) => Ok(
            are_kept(outputs.marks()) == is_whole && are_told_as_alone(alloc, acts, outputs)?,
        ),
        Err(fault) => Ok(
            fault.outputs.marks().len() == fault.done
                && are_told_as_alone(alloc, acts, &fault.outputs)?,
        ),
    }
}

/// The run of a new house with this request for memory refused.
fn run_refused<A: Allocator + Copy, B: Allocator>(
    heap: &Refusing<B>,
    (alloc, global): (A, Global),
    events: &[Event<A>],
    at: u64,
) -> Result<Result<Outputs<A>, RunFault<A>>, AllocError> {
    let house = new_house(alloc, global)?;
    heap.set(Plan::RefuseAt(at));
    Ok(run(alloc, house, events))
}

/// Whether it is right, or `None` where it also asks for fewer requests.
fn is_refused_right<A: Allocator + Copy, B: Allocator>(
    heap: &Refusing<B>,
    alloc: A,
    (acts, at): (&[Act], u64),
    ended: &Result<Outputs<A>, RunFault<A>>,
) -> Result<Option<bool>, AllocError> {
    let is_whole = heap.asked() <= at;
    heap.set(Plan::Grant);
    let is_right = is_run_right(alloc, acts, ended, is_whole)?;
    Ok(if is_whole && is_right {
        None
    } else {
        Some(is_right)
    })
}

/// Whether a run withstands the refusal of this request for memory, or `None` where it asks for fewer.
pub(crate) fn withstands<A: Allocator + Copy, B: Allocator>(
    heap: &Refusing<B>,
    (alloc, global): (A, Global),
    acts: &[Act],
    at: u64,
) -> Result<Option<bool>, AllocError> {
    heap.set(Plan::Grant);
    let events = events_of(alloc, acts)?;
    let ended = run_refused(heap, (alloc, global), events.as_slice(), at)?;
    is_refused_right(heap, alloc, (acts, at), &ended)
}
