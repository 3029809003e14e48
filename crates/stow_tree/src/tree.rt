//! The tree.
ghost use Rattle.std.specs.Prelude.{◌≡◌, ◌↔◌, ◌<◌, ◌≤◌, ◌^◌, [], ◌∷◌, length, map, None, option_map, IfOk, IfErr, IfSome, OnOk, OnErr, Err};
ghost use Rattle.std.specs.FinMap as finite;
ghost use Rattle.stow_flush.specs.Rooms.{FitsSqueezed};
ghost use Rattle.stow_flush.specs.StowLeafCache.Cache.{cache_resized};
ghost use Rattle.stow_flush.specs.StowMerge.Pins.{pins_in};
ghost use Rattle.stow_flush.specs.StowNode.Installs.{BatchIsGone, CanInstall};
ghost use Rattle.stow_flush.specs.StowNode.Moves.{IsSqueezed, StaysInMeaning};
ghost use Rattle.stow_flush.specs.StowNode.declared.installed.Installed.TheVariants as installed;
ghost use Rattle.stow_flush.specs.StowNode.Plans.{IsPlanned, Plans};
ghost use Rattle.stow_flush.specs.StowNode.Subtree.{buffered};
ghost use Rattle.stow_read.specs.Found.{found_value};
ghost use Rattle.stow_read.specs.Glance.{IsToldOf};
ghost use Rattle.stow_read.specs.Range.{IsRange, key_value};
ghost use Rattle.stow_read.specs.Versions.{AreVersionsOf};
ghost use Rattle.stow_read.specs.Walk.{IsWalk};
ghost use Rattle.stow_tree_model.specs.Messages.{ops_of, value};
ghost use Rattle.stow_tree_model.specs.Operations.{value_in};
ghost use Rattle.stow_tree_model.specs.TreeMessage.{message_of};
ghost use Rattle.stow_tree_model.specs.Value.{IsValue};
ghost use Rattle.stow_tree_model.specs.VersionBuf.{version_of_buf};
ghost use Rattle.stow_tree.specs.declared.tree_fault.TreeFault.TheVariants as fault;
ghost use Rattle.stow_tree.specs.Putting.{bytes_of, CanReserve, IsReserved, Puts, MakesRoomNear};
ghost use Rattle.stow_tree.specs.Reports.{IsReport};
ghost use Rattle.stow_tree.specs.Shapes.{AreInRange, IsInRange};
ghost use Rattle.stow_tree.specs.TreeState.{tree_messages, new_tree, AgreeUnder, IsRead};

use crate::counting::counts_of;
use crate::shape_report::ShapeReport;
use crate::tree_fault::TreeFault;
use crate::tree_shape::TreeShape;
use std::alloc::{AllocError, Allocator, Global};
use std::marker::Model;
use stow_flush::room::make_room;
use stow_flush::stow_leaf::leaf::Leaf;
use stow_flush::stow_leaf_cache::leaf_cache::LeafCache;
use stow_flush::stow_merge::flush_job::FlushJob;
use stow_flush::stow_merge::flush_result::FlushResult;
use stow_flush::stow_merge::pins::Pins;
use stow_flush::stow_message::head::size;
use stow_flush::stow_message::place::Place;
use stow_flush::stow_node::installed::Installed;
use stow_flush::stow_node::node::Node;
use stow_flush::stow_node::pick::Pick;
use stow_raw::raw_buf::RawBuf;
use stow_read::found::Found;
use stow_read::getting::get;
use stow_read::glance::Glance;
use stow_read::glancing::glance;
use stow_read::leaf_for::leaf_for;
use stow_read::range::range;
use stow_read::row::Row;
use stow_read::row_head::RowHead;
use stow_read::start::Start;
use stow_read::versions::versions;
use stow_read::walk::walk;
use stow_tree_model::message::Message;
use stow_tree_model::tenant_key::TenantKey;
use stow_tree_model::tenant_key_buf::TenantKeyBuf;
use stow_tree_model::version_buf::VersionBuf;

/// The changes and rows of all tenants, in nodes and leaves.
#[derive(Drop)]
pub struct Tree<A: Allocator + Copy = Global> {
    root: Node<A>,
    /// A block of the node size, into which a buffer is copied where its dead bytes are dropped.
    spare: RawBuf<A>,
    cache: LeafCache<A>,
}

impl<A: Allocator + Copy> Model for Tree<A> {
    ghost use Rattle.stow_tree.specs.TreeState.{TreeState, IsTree};

    ghost Value = { TreeState };

    ghost view = { λ t. record { root = t.root; cache = t.cache } };

    ghost invariant = { IsTree };
}

/// The bytes that messages take in a buffer.
fn total(messages: &[Message<'_>]) -> usize
    requires { bytes_of (map message_of messages.now) < 2 ^ 32 }
    ensures { result ≡ bytes_of (map message_of messages.now) }
{
    let mut total = 0;
    for i in 0..messages.len() {
        total += size(messages[i]);
    }
    total
}

/// How many keys of the rows stand no higher than the leaf's last; the first one counts wherever it stands.
fn reached<A: Allocator>(leaf: &Leaf<A>, rows: &[Row<'_, A>]) -> usize
    requires { 0 < length rows.now }
    ensures { (0 < result) × (result ≤ length rows.now) }
{
    let len = leaf.rows.len();
    if len == 0 {
        return 1;
    }
    let last = leaf.rows.get(len - 1).key;
    let (mut low, mut high) = (1, rows.len());
    while low < high {
        let middle = low + (high - low) / 2;
        if rows[middle].key.bytes > last.bytes {
            high = middle;
        } else {
            low = middle + 1;
        }
    }
    low
}

impl<A: Allocator + Copy> Tree<A> {
    /// A tree of no messages: one empty leaf below a root. It is refused where a size is out of its range, and where
    /// memory is.
    pub fn new(alloc: A, shape: TreeShape) -> Result<Tree<A>, TreeFault>
        ensures made { IfOk result (λ tree. tree ≡ new_tree shape) }
        ensures empty { IfOk result (λ tree. tree_messages tree ≡ finite.empty) }
        ensures sizes { IfOk result (λ tree. AreInRange tree.root.shape) }
        ensures in_range { IsInRange shape → OnErr result (result ≡ Err fault.Memory) }
        ensures out_of_range { ¬ (IsInRange shape) → result ≡ Err fault.Shape }
    {
        if !shape.is_in_range() {
            return Err(TreeFault::Shape);
        }
        Ok(Tree {
            root: Node::first(alloc, shape.nodes())?,
            spare: RawBuf::with_capacity(alloc, shape.buffer as usize)?,
            cache: LeafCache::new(alloc, shape.cache as usize)?,
        })
    }

    /// Makes the room that `put_all` of these messages needs. Where they fit beside the root's, dead bytes dropped, no
    /// message moves; else some move towards the leaves. Where memory is refused the tree means what it did.
    pub fn reserve(
        &mut self,
        alloc: A,
        messages: &[Message<'_>],
        pins: &Pins<A>,
    ) -> Result<(), AllocError>
        requires can { CanReserve self.old (map message_of messages.now) }
        ensures reserved { OnOk result (IsReserved self.new (map message_of messages.now)) }
        ensures agrees { AgreeUnder (pins_in pins.now) (tree_messages self.old)
            (tree_messages self.new) }
        ensures unmoved { FitsSqueezed (bytes_of (map message_of messages.now)) self.old.root
            → IsSqueezed self.old.root self.new.root }
        ensures shape { self.new.root.shape ≡ self.old.root.shape }
        ensures limit { self.new.cache.limit ≡ self.old.cache.limit }
    {
        make_room(
            alloc,
            &mut self.root,
            total(messages),
            pins,
            &mut self.spare,
            &mut self.cache,
        )
    }

    /// Makes the room that `put_near` of the message needs, as `reserve` does. It may come to stand at this place in the root's buffer:
    /// where the last message before it hides the one before that, that one may go, and the place is one lower then.
    pub fn reserve_near(
        &mut self,
        alloc: A,
        message: Message<'_>,
        pins: &Pins<A>,
        place: &mut Place,
    ) -> Result<(), AllocError>
        requires can { CanReserve self.old (message_of message ∷ []) }
        ensures reserved { OnOk result (IsReserved self.new (message_of message.entry ∷ [])) }
        ensures agrees { AgreeUnder (pins_in pins.now) (tree_messages self.old)
            (tree_messages self.new) }
        ensures near { MakesRoomNear (message_of message.entry) (pins_in pins.now)
            self.old.root self.new.root }
        ensures shape { self.new.root.shape ≡ self.old.root.shape }
        ensures limit { self.new.cache.limit ≡ self.old.cache.limit }
    {
        if self.root.drop_hidden(pins, *place) {
            *place = place.one_fewer();
        }
        make_room(
            alloc,
            &mut self.root,
            size(message),
            pins,
            &mut self.spare,
            &mut self.cache,
        )
    }

    /// Puts messages into the tree, for which there is room. It takes no memory and cannot fail.
    pub fn put_all(&mut self, messages: &[Message<'_>])
        requires { IsReserved self.old (map message_of messages.now) }
        ensures { Puts (map message_of messages.now) self.old self.new }
    {
        for i in 0..messages.len() {
            self.root.push(messages[i]);
        }
    }

    /// Puts a message into the tree, for which there is room, as `put_all` does. The search is the shorter the nearer the guess
    /// is to the message's place in the root's buffer.
    pub fn put_near(&mut self, message: Message<'_>, guess: Place)
        requires { IsReserved self.old (message_of message ∷ []) }
        ensures { Puts (message_of message.entry ∷ []) self.old self.new }
    {
        self.root.push_near(message, guess);
    }

    /// A job for a flush outside the lock, under pins, if a buffer holds a message: it is of the deepest such buffer, of equals
    /// the one to pick, from which messages for one child move down first, where it stands above nodes. What the tree means stays, also where
    /// memory is refused.
    pub fn plan(
        &mut self,
        alloc: A,
        pins: &Pins<A>,
        pick: Pick,
    ) -> Result<Option<FlushJob<A>>, AllocError>
        ensures same { tree_messages self.new ≡ tree_messages self.old }
        ensures moves { StaysInMeaning self.old.root self.new.root }
        ensures cache { self.new.cache ≡ self.old.cache }
        ensures none { IfOk result (λ job. job ≡ None ↔ buffered self.old.root ≡ []) }
        ensures job { IfOk result (λ job. IfSome job
            (IsPlanned (pins_in pins.now) self.new.root)) }
        ensures way { IfOk result (λ job. IfSome job
            (Plans self.old.root.height self.old.root self.new.root)) }
    {
        self.root.plan(alloc, pins, pick)
    }

    /// Puts the pages of a job's result in its leaf's place, and takes the job's batch out of the buffer above: the tree means the
    /// same under the present pins. Where it can't come any more the result is stale. Where memory is refused it comes back,
    /// and no message has moved.
    pub fn install(
        &mut self,
        alloc: A,
        merge: FlushResult<A>,
        pins: &Pins<A>,
    ) -> Result<Installed, (FlushResult<A>, AllocError)>
        ensures agrees { AgreeUnder (pins_in pins.now) (tree_messages self.old)
            (tree_messages self.new) }
        ensures stale { IfOk result (λ r. r ≡ installed.Stale
            ↔ ¬ CanInstall self.old.root merge.job (pins_in pins.now)) }
        ensures unmoved { IfOk result (λ r. r ≡ installed.Stale → self.new ≡ self.old) }
        ensures done { IfOk result (λ r. r ≡ installed.Done
            → BatchIsGone merge.job.batch.messages self.new.root) }
        ensures err { IfErr result (λ e. (e.0 ≡ merge) × IsRead self.old self.new) }
        ensures shape { self.new.root.shape ≡ self.old.root.shape }
        ensures limit { self.new.cache.limit ≡ self.old.cache.limit }
    {
        let (spare, cache) = (&mut self.spare, &mut self.cache);
        self.root.install(alloc, merge, pins, spare, cache)
    }

    /// All versions of the key, from the oldest: at each number the newest one up to it has what the key has there. A
    /// removal's version has no value.
    pub fn versions(
        &mut self,
        alloc: A,
        key: TenantKey<'_>,
    ) -> Result<Vec<VersionBuf<A>, A>, AllocError>
        ensures versions { IfOk result (λ versions. AreVersionsOf
            (ops_of (tree_messages self.old) key.entry.bytes.now) key.entry.bytes.now
            (map version_of_buf versions.items)) }
        ensures same { IsRead self.old self.new }
    {
        self.offer(key);
        versions(alloc, &self.root, key)
    }

    /// What the key has at a number. It is copied once where appends make it, and lent else. The rows of the leaf that
    /// was looked into are offered to the cache by `offer`.
    pub fn get(
        &self,
        alloc: A,
        key: TenantKey<'_>,
        at: u64,
    ) -> Result<Option<Found<'_, A>>, AllocError>
        ensures value { IfOk result (λ found. option_map found_value found
            ≡ value (tree_messages self.now) key.entry.bytes.now at) }
        ensures short { IfOk result (λ found. IsValue (value_in (option_map found_value found))) }
    {
        self.get_with_place(alloc, key, at, &mut Place::none())
    }

    /// What `get` answers. The place is then where the key's next message may come to stand in the root's buffer: a guess,
    /// beyond all where none was made.
    #[inline(always)]
    pub fn get_with_place(
        &self,
        alloc: A,
        key: TenantKey<'_>,
        at: u64,
        place: &mut Place,
    ) -> Result<Option<Found<'_, A>>, AllocError>
        ensures value { IfOk result (λ found. option_map found_value found
            ≡ value (tree_messages self.now) key.entry.bytes.now at) }
        ensures short { IfOk result (λ found. IsValue (value_in (option_map found_value found))) }
    {
        let lookup = get(alloc, &self.root, key, at)?;
        *place = lookup.place;
        Ok(lookup.found)
    }

    /// What the key's newest message or row up to a number tells of the value that it has there. It takes no memory, and no
    /// longer where many appends wait.
    pub fn glance(&self, key: TenantKey<'_>, at: u64) -> Glance
        ensures { IsToldOf (value (tree_messages self.now) key.entry.bytes.now at) result.newest }
    {
        glance(&self.root, key, at)
    }

    /// The first `count` keys from `from` on and below `to` that have a value at a number, in order, with it: none is copied, but
    /// those that appends make are.
    pub fn range(
        &self,
        alloc: A,
        from: TenantKey<'_>,
        to: TenantKey<'_>,
        at: u64,
        count: usize,
    ) -> Result<Vec<Row<'_, A>, A>, AllocError>
        ensures { IfOk result (λ rows. IsRange (ops_of (tree_messages self.now))
            from.entry.bytes.now to.entry.bytes.now at count (map key_value rows.items)) }
    {
        range(alloc, &self.root, from, to, at, count)
    }

    /// A key of each leaf that these rows' keys are of, for `offer`.
    pub fn leaf_keys(
        &self,
        alloc: A,
        rows: &[Row<'_, A>],
    ) -> Result<Vec<TenantKeyBuf<A>, A>, AllocError> {
        let mut keys = Vec::new(alloc);
        let mut first = 0;
        while first < rows.len() {
            let key = rows[first].key;
            keys.push(TenantKeyBuf::from_key(alloc, key)?)?;
            first += match leaf_for(&self.root, key) {
                Some(leaf) => reached(leaf, &rows[first..]),
                None => 1,
            };
        }
        Ok(keys)
    }

    /// The first `count` keys from the start on and below `to` that have a value at a number, in order, with what is told
    /// of it: no value is copied, and no leaf held. A call that starts after the last key goes on from there.
    pub fn walk(
        &self,
        alloc: A,
        from: Start<'_>,
        to: TenantKey<'_>,
        at: u64,
        count: usize,
    ) -> Result<Vec<RowHead<A>, A>, AllocError>
        ensures { IfOk result (λ rows. IsWalk (ops_of (tree_messages self.now))
            from.entry.key.bytes.now from.entry.after to.entry.bytes.now at count rows.items) }
    {
        walk(alloc, &self.root, from, to, at, count)
    }

    /// Holds the rows of the key's leaf, in front of all, where there is memory.
    pub fn offer(&mut self, key: TenantKey<'_>)
        ensures { IsRead self.old self.new }
    {
        let Some(leaf) = leaf_for(&self.root, key) else {
            return;
        };
        let low = leaf.low.as_key();
        if self.cache.find(low.bytes).is_some() {
            return;
        }
        if let Ok(rows) = leaf.rows.share() {
            self.cache.keep(low.bytes, rows);
        }
    }

    /// Holds at most so many leaves from now on; the last used stay. Where memory is refused nothing changes.
    pub fn resize(&mut self, leaves: usize) -> Result<(), AllocError>
        ensures root { self.new.root ≡ self.old.root }
        ensures ok { OnOk result (self.new.cache ≡ cache_resized leaves self.old.cache) }
        ensures err { OnErr result (self.new.cache ≡ self.old.cache) }
    {
        self.cache.resize(leaves)
    }

    /// How large it is.
    pub fn shape(&self) -> ShapeReport
        ensures { IsReport self.now result }
    {
        let counts = counts_of(&self.root);
        ShapeReport {
            height: self.root.height(),
            leaves: counts.leaves,
            buffered: counts.buffered,
            cached: self.cache.len() as u64,
        }
    }
}
