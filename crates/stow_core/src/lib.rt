//! The rows of all tenants in one tree, with each tenant's requests answered as if it were alone.
//!
//! What a tenant has is `store_of` of the core's value, its part of the state that all tenants share. `Core::prepare` asks
//! for all the memory that an answer takes and changes no tenant's store. `Core::commit` then takes none and cannot fail: it
//! moves the tenant's store as the answer says and leaves every other tenant's as it was. `Core::call` does both: an
//! answer to which memory was refused leaves every store as it was. Words that are refused by themselves, and a PING without a text,
//! are never told want of memory (`NeedsNoMemory`); that others are told it only where it was refused no contract says. Who the
//! tenants are is said by `Tenants` of `stow_login`.
//!
//! Rows stand in the order of packed keys, each the tenant's index and then its own key, so a tenant's rows
//! stand together, in the order of its keys. A write is a message to the tree for each of its keys, with the tenant's
//! next number: `prepare` makes the room for them, which may move other messages towards the leaves, and `commit` puts
//! them. What they carry is lent from the request, but for the text of a sum. An APPEND's message has its suffix alone. A
//! snapshot is an id with the number of the last write, its pin: messages that a pin shows stay readable when others are
//! merged. What a tenant is charged is kept as its changes come, and looked at before room is made.
//!
//! An APPEND, a STRLEN, an EXISTS, a SET and a DEL ask for no value: the key's newest message tells the number of its row,
//! and the length where the value is whole there. The length of a value that appends make is kept in a table of 1 MiB, by the
//! tenant and the number, from the `commit` of the append on until another length comes to its place. That each length there
//! is the one of every row of its tenant's with its number is kept by the core's type, and holds since no two rows of a tenant's
//! have one number. Where a length isn't there the value is read.
//!
//! A flush can be merged outside the lock that whoever drives the core holds: `Core::plan` gives its job, under the pins, or
//! none exactly where no buffer holds a message, and `Core::install` puts the job's result into the tree, unless it is stale
//! (`specs/Flushing.antt`). Neither changes a tenant's store. A body of either that always answers want of memory meets its
//! contract: tests call both with ample memory.
//!
//! Where memory is short removals still have some: it is held back (`HeldBack`) and given up by the removal that is refused memory,
//! which is then tried once more. Every other write first gets back what is missing of it. Contracts say which commands are removals
//! and reads (`kind_of`), that these are tried without getting it back (`is_ready`), and that a removal is tried once more
//! (`makes_way`). None says how much is held back or freed, or when leaves are drained: a body of `drain` or `hold_back` that does
//! nothing is right too, and so is one of `makes_way` that frees nothing; a test fills a heap.
//!
//! A body of `prepare`, `prepare_command` or `prepare_change` that prepares the same twice is right too, since
//! a prepared answer that is never carried out changes nothing.
//! So is one of `told_version`, `length_of` or `kept_length` that tells nothing, and one of `keep` that holds nothing: values
//! are then read. Other places of a `SizedRow` or of the core make a search longer, and change nothing else.
#![tactic(auto)]

ghost use Rattle.std.specs.Prelude.{◌≡◌, ◌<◌, Err, IfOk, IsOk, OnErr, OnOk, length, map};
ghost use Rattle.std.specs.Arc.{arc_value};
ghost use Rattle.stow_model.specs.Reply.{reply_of};
ghost use Rattle.stow_model.specs.Login.{IsTenant};
ghost use Rattle.stow_core.specs.Memory.{NeedsNoMemory};
ghost use Rattle.stow_core.specs.State.{store_of, IsNewCore, Moves, Calls, Resized, Keeps};
ghost use Rattle.stow_core.specs.Tenancies.{new_tenancy, tenancy_of};
ghost use Rattle.stow_core.specs.Prepared.{CanCarryOut, PreparesOwn, RefusesStranger, effect};
ghost use Rattle.stow_dropping.specs.StowTree.declared.tree_fault.TreeFault.TheVariants as fault;
ghost use Rattle.stow_dropping.specs.StowTree.Reports.{IsReport};
ghost use Rattle.stow_dropping.specs.StowTree.Shapes.{IsInRange};
ghost use Rattle.stow_dropping.specs.StowTree.TreeState.{new_tree};

use change::Change;
use held_back::HeldBack;
use lengths::Lengths;
use places::Places;
use prepared::Prepared;
use preparing::only_counted;
use std::alloc::{AllocError, Allocator, Global};
use std::marker::Model;
use std::sync::Arc;
use stow_commands::command::Command;
use stow_dropping::stow_merge::pins::Pins;
use stow_dropping::stow_tree::shape_report::ShapeReport;
use stow_dropping::stow_tree::tree::Tree;
use stow_dropping::stow_tree::tree_fault::TreeFault;
use stow_dropping::stow_tree::tree_shape::TreeShape;
use stow_login::tenants::Tenants;
use stow_model::refusal::Refusal;
use stow_model::reply::Reply;
use stow_model::words::Words;
use tenancy::Tenancy;

pub mod change;
mod changing;
mod charging;
mod committing;
mod deleting;
mod flushing;
mod found_change;
pub mod given;
mod held_back;
mod interval;
mod keys;
mod kind;
mod length_entry;
mod lengths;
mod pinning;
pub mod places;
pub mod prepared;
mod preparing;
mod ranging;
mod reading;
mod recovering;
mod row_answer;
pub mod rows_at;
mod sized_row;
pub mod snapshot;
mod snapshots;
pub mod tenancy;
mod usage;
pub mod write;
mod writes;
mod writing;

pub use stow_commands;
pub use stow_dropping::{stow_merge, stow_node, stow_tree};
pub use stow_login;

/// The stores of all tenants.
#[derive(Drop)]
pub struct Core<A: Allocator + Copy = Global> {
    tenants: Arc<Tenants<A>, A>,
    tenancies: Vec<Tenancy<A>, A>,
    /// The numbers of live snapshots, at which rows stay readable.
    pins: Pins<A>,
    /// The tenant for whose next pin there is room, if not 0.
    pin_room: u32,
    tree: Tree<A>,
    /// Where a key is packed. Its bytes mean nothing between calls, so that its memory serves one after another.
    buffer: Vec<u8, A>,
    /// The lengths of values that appends made. Each is that of every row of its tenant's that has its number.
    lengths: Lengths<A>,
    /// Where a write's keys are listed. They mean nothing between calls, so that their memory serves one after another.
    keys: Words<A>,
    /// Where the messages of the write that is prepared may come to stand.
    places: Places,
    /// Memory that is held back for removals.
    held: HeldBack<A>,
}

impl<A: Allocator + Copy> Model for Core<A> {
    ghost use Rattle.std.specs.Arc.{arc_value};
    ghost use Rattle.std.specs.Prelude.{map};
    ghost use Rattle.stow_core.specs.RowLengths.{IsKept};
    ghost use Rattle.stow_core.specs.State.{CoreState};
    ghost use Rattle.stow_core.specs.Tenancies.{tenancy_of};

    ghost Value = { CoreState };

    ghost view = { λ c. record {
      entries = arc_value c.tenants;
      tenancies = map tenancy_of c.tenancies.items;
      pin_room = c.pin_room;
      tree = c.tree;
    } };

    ghost invariant = { λ c. IsKept (record {
      entries = arc_value c.tenants;
      tenancies = map tenancy_of c.tenancies.items;
      pin_room = c.pin_room;
      tree = c.tree;
    }) c.pins c.lengths };
}

impl<A: Allocator + Copy> Core<A> {
    /// A core in which each tenant's store is empty, and has the quota of the tenant's entry. It is refused where a size
    /// of its tree is out of its range, and where memory is.
    pub fn new(
        alloc: A,
        tenants: Arc<Tenants<A>, A>,
        shape: TreeShape,
    ) -> Result<Core<A>, TreeFault>
        ensures entries { IfOk result (λ core. core.entries ≡ arc_value tenants) }
        ensures empty { IfOk result IsNewCore }
        ensures tree { IfOk result (λ core. core.tree ≡ new_tree shape) }
        ensures in_range { IsInRange shape → OnErr result (result ≡ Err fault.Memory) }
        ensures out_of_range { ¬ (IsInRange shape) → result ≡ Err fault.Shape }
    {
        let tree = Tree::new(alloc, shape)?;
        let tenancies = new_tenancies(alloc, &tenants)?;
        let lengths = Lengths::new(alloc)?;
        let pins = Pins::new(alloc);
        let held = HeldBack::new(alloc, shape.buffer)?;
        Ok(Core {
            tenants,
            tenancies,
            pins,
            pin_room: 0,
            tree,
            lengths,
            buffer: Vec::new(alloc),
            keys: Words::new(alloc),
            places: Places::none(),
            held,
        })
    }

    /// The tenants.
    pub fn tenants(&self) -> &Arc<Tenants<A>, A>
        ensures { arc_value result.now ≡ self.now.entries }
    {
        &self.tenants
    }

    /// Answers a tenant's words in its own store. No other tenant's store changes, and none where memory is
    /// refused, which is never told of words that need none.
    pub fn call(&mut self, alloc: A, tenant: u32, words: &Words<A>) -> Reply<A>
        ensures { Calls self.old tenant words.now (reply_of result) self.new }
    {
        prove!(self.tenancies.len() < 65_536);
        match self.prepare(alloc, tenant, words) {
            Ok(prepared) => self.commit(prepared),
            Err(_) => Reply::Error(Refusal::OutOfMemory),
        }
    }

    /// Finds a tenant's answer, and all the memory that it takes. No tenant's store changes. Words that are refused by themselves, and a
    /// PING without a text, need none, and who is no tenant is refused without any.
    pub fn prepare<'a>(
        &mut self,
        alloc: A,
        tenant: u32,
        words: &'a Words<A>,
    ) -> Result<Prepared<'a, A>, AllocError>
        ensures keeps { Keeps self.old self.new }
        ensures room { IfOk result (λ p. CanCarryOut self.new p) }
        ensures tenant { IfOk result (λ p. p.tenant ≡ tenant) }
        ensures own { PreparesOwn self.old tenant words.now result }
        ensures needless { NeedsNoMemory words.now → IsOk result }
        ensures stranger { ¬ (IsTenant self.old.entries tenant)
            → RefusesStranger self.old self.new result }
    {
        if !self.is_tenant(tenant) {
            return Ok(Prepared {
                tenant,
                change: Change::Nothing,
                reply: Reply::Error(Refusal::NotAuthenticated),
            });
        }
        match Command::read(words) {
            Ok(command) => self.prepare_command(alloc, tenant, command),
            Err(refusal) => Ok(only_counted(tenant, Reply::Error(refusal))),
        }
    }

    /// Carries a prepared answer out. It takes no memory and cannot fail.
    pub fn commit(&mut self, prepared: Prepared<'_, A>) -> Reply<A>
        requires { CanCarryOut self.old prepared }
        ensures reply { result ≡ prepared.entry.reply }
        ensures own { IsTenant self.old.entries prepared.entry.tenant
            → Moves self.old prepared.entry.tenant
            (effect prepared.entry (store_of self.old prepared.entry.tenant)) self.new }
        ensures stranger { ¬ (IsTenant self.old.entries prepared.entry.tenant)
            → self.new ≡ self.old }
    {
        let Prepared {
            tenant,
            change,
            reply,
        } = prepared;
        match change {
            Change::Nothing => {}
            Change::Count => self.count(tenant),
            Change::Refuse => self.refuse(tenant),
            Change::Write(write) => self.put(tenant, write),
            Change::Take => self.take(tenant),
            Change::Drop(id, charge) => self.drop_snapshot(tenant, id, charge),
        }
        reply
    }

    /// Holds at most so many leaves unpacked from now on; the last used stay. Where memory is refused nothing changes.
    pub fn resize(&mut self, leaves: usize) -> Result<(), AllocError>
        ensures ok { OnOk result (Resized leaves self.old self.new) }
        ensures err { OnErr result (self.new.tree ≡ self.old.tree) }
        ensures keeps { Keeps self.old self.new }
    {
        self.tree.resize(leaves)
    }

    /// How large the tree of all tenants' rows is.
    pub fn shape(&self) -> ShapeReport
        ensures { IsReport self.now.tree result }
    {
        self.tree.shape()
    }
}

/// What each tenant has beside its rows: nothing was written or counted yet.
fn new_tenancies<A: Allocator + Copy>(
    alloc: A,
    tenants: &Tenants<A>,
) -> Result<Vec<Tenancy<A>, A>, AllocError>
    ensures each { IfOk result (λ made. map tenancy_of made.items ≡ map new_tenancy tenants.now) }
    ensures few { IfOk result (λ made. length made.items < 65536) }
{
    let mut made = Vec::new(alloc);
    for before in 0..tenants.count() {
        made.push(Tenancy::new(alloc, tenants.quota(before + 1)))?;
    }
    Ok(made)
}
