//! Rows that are more than a small node holds, by a run of the house over trees of several shapes: the answers are the
//! same.
use crate::events::clients::{are_kept, is_told};
use crate::making::ran_in;
use std::alloc::{AllocError, Allocator, Global};
use std::test::Fail;
use stow_bytes::byte_string::ByteString;
use stow_house::stow_tree::shape_report::ShapeReport;
use stow_house::stow_tree::tree_shape::TreeShape;
use stow_model::event::Event;
use stow_testing::many::{Exchange, login, reads, writes};
use stow_testing::tenants::AMPLE;

/// The last reads: some fifty rows, and all at once.
fn last_of<A: Allocator>(reads: &[Exchange<A>]) -> &[Exchange<A>] {
    &reads[reads.len().min(350)..]
}

/// What happens, and what its connection is to be told.
#[derive(Drop)]
struct Talk<A: Allocator> {
    events: Vec<Event<A>, A>,
    told: Vec<u8, A>,
    /// Whether a flusher plans, merges and installs after every third request.
    flushes: bool,
}

impl<A: Allocator + Copy> Talk<A> {
    /// Nothing is asked yet.
    fn new(alloc: A, flushes: bool) -> Talk<A> {
        Talk {
            events: Vec::new(alloc),
            told: Vec::new(alloc),
            flushes,
        }
    }

    fn ask(&mut self, alloc: A, exchange: &Exchange<A>) -> Result<(), AllocError> {
        let bytes = ByteString::from_slice(alloc, exchange.asked.as_slice())?;
        self.events.push(Event::Piece(1, bytes))?;
        self.events.push(Event::Serve(1))?;
        self.told.extend_from_slice(exchange.told.as_slice())
    }

    fn flush(&mut self) -> Result<(), AllocError> {
        self.events.push(Event::Plan(1))?;
        self.events.push(Event::Merge(1))?;
        self.events.push(Event::Install(1))?;
        Ok(())
    }

    fn ask_all(&mut self, alloc: A, exchanges: &[Exchange<A>]) -> Result<(), AllocError> {
        for (place, exchange) in exchanges.iter().enumerate() {
            self.ask(alloc, exchange)?;
            if self.flushes && place % 3 == 2 {
                self.flush()?;
            }
        }
        Ok(())
    }

    /// Asks the same again with a cache of this size.
    fn ask_with(
        &mut self,
        alloc: A,
        leaves: usize,
        exchanges: &[Exchange<A>],
    ) -> Result<(), AllocError> {
        self.events.push(Event::Resize(leaves))?;
        self.ask_all(alloc, exchanges)
    }

    /// Reads rows with each size of the cache: the first one, and then fewer with 0, 1 and 1000.
    fn read_again(&mut self, alloc: A, reads: &[Exchange<A>]) -> Result<(), AllocError> {
        self.ask_all(alloc, reads)?;
        let last = last_of(reads);
        self.ask_with(alloc, 0, last)?;
        self.ask_with(alloc, 1, last)?;
        self.ask_with(alloc, 1000, last)
    }

    /// Rows that are written, and then read so.
    fn go_on(&mut self, alloc: A) -> Result<(), AllocError> {
        self.events.push(Event::Open(1))?;
        self.ask(alloc, &login(alloc)?)?;
        self.ask_all(alloc, writes(alloc)?.as_slice())?;
        self.read_again(alloc, reads(alloc)?.as_slice())
    }

    /// How large the tree of a new house of this shape is in the end, if the connection is told what it is to be told, and no
    /// event was refused memory.
    fn report(
        &mut self,
        alloc: A,
        global: Global,
        shape: TreeShape,
    ) -> Result<Option<ShapeReport>, AllocError> {
        self.go_on(alloc)?;
        let (outputs, report) = ran_in(alloc, global, (AMPLE, shape), self.events.as_slice())?;
        let are_right = is_told(alloc, &outputs, 1, self.told.as_slice())?;
        Ok((are_right && are_kept(outputs.marks())).then_some(report))
    }
}

/// The same of a new talk.
fn report_of<A: Allocator + Copy>(
    alloc: A,
    global: Global,
    shape: TreeShape,
    flushes: bool,
) -> Result<Option<ShapeReport>, AllocError> {
    Talk::new(alloc, flushes).report(alloc, global, shape)
}

/// Whether it is told, all leaves are held, since the last read is of all rows, messages wait, and the leaves are several just where the shape
/// is small.
fn is_right(report: Option<ShapeReport>, is_small: bool) -> bool {
    match report {
        Some(sizes) => {
            sizes.cached == sizes.leaves && sizes.buffered >= 1 && (sizes.leaves >= 2) == is_small
        }
        None => false,
    }
}

/// Shapes of small nodes with a fan-out and a cache.
fn small(fan_out: u32, cache: u32) -> TreeShape {
    TreeShape {
        fan_out,
        cache,
        ..TreeShape::SMALLEST
    }
}

/// A shape whose root has room for all rows.
const LARGE: TreeShape = TreeShape {
    buffer: 4_194_304,
    ..TreeShape::USUAL
};

/// Whether rows are told in a tree of this shape, and so many leaves are left.
fn is_shape_right<A: Allocator + Copy>(
    alloc: A,
    global: Global,
    shape: TreeShape,
) -> Result<bool, AllocError> {
    let report = report_of(alloc, global, shape, false)?;
    Ok(is_right(report, shape.buffer == TreeShape::SMALLEST.buffer))
}

#[test]
fn rows_are_read_at_the_least_fan_out(rt: HostRuntime) -> Result<(), Fail> {
    assert!(rt; is_shape_right(rt.alloc(), rt.alloc(), small(4, 0))?);
    Ok(())
}

#[test]
fn rows_are_read_at_the_least_fan_out_from_a_cache(rt: HostRuntime) -> Result<(), Fail> {
    assert!(rt; is_shape_right(rt.alloc(), rt.alloc(), small(4, 1000))?);
    Ok(())
}

#[test]
fn rows_are_read_at_the_greatest_fan_out(rt: HostRuntime) -> Result<(), Fail> {
    assert!(rt; is_shape_right(rt.alloc(), rt.alloc(), small(256, 0))?);
    Ok(())
}

#[test]
fn rows_are_read_at_the_greatest_fan_out_from_a_cache(rt: HostRuntime) -> Result<(), Fail> {
    assert!(rt; is_shape_right(rt.alloc(), rt.alloc(), small(256, 1000))?);
    Ok(())
}

#[test]
fn rows_are_read_in_a_large_root(rt: HostRuntime) -> Result<(), Fail> {
    assert!(rt; is_shape_right(rt.alloc(), rt.alloc(), LARGE)?);
    Ok(())
}

// The answers are the same where the messages are flushed between the requests, in steps.
#[test]
fn rows_are_read_between_flushes(rt: HostRuntime) -> Result<(), Fail> {
    let report = report_of(rt.alloc(), rt.alloc(), small(4, 1), true)?;
    assert!(rt;
        matches!(report, Some(sizes) if sizes.leaves >= 2),
        "{report:?}"
    );
    Ok(())
}
