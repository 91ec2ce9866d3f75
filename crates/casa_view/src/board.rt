ghost use Rattle.std.specs.Prelude.{◌≡◌, IfOk, refl};
ghost use Rattle.std.proofs.Props.{props};
ghost use Rattle.casa_view.specs.Board.{versions};
ghost use Rattle.casa_item.specs.Versions.{IsOrderly};

use crate::change::Change;
use crate::contents::{clock_in, list_in, regulations_in, shared_list_in};
use crate::current::same_items;
use crate::items::Items;
use crate::read_set::may_read_all;
use crate::staging::{fit, write};
use crate::view::View;
use casa_commit::World;
use casa_flight::{Call, Key, RegId, Regulation, Reply, Row};
use casa_list::{SharedList, SlotList};
use casa_table::{Catalogue, Item, Spare, Store, Table, Version, row_in};
use casa_time::Moment;
use std::alloc::{AllocError, Global};
use std::sync::Arc;

/// All items of the allocator's state, each with its version.
///
/// A board is a [`World`]: views are taken of it, and changes are applied to it. Here a change writes the clock, which a
/// view has read. `rt` is the runtime and `alloc` its allocator:
///
/// ```rust
/// let mut board = Board::new(alloc, Copies::new()).expect(&rt, "memory");
/// let at = Moment::new(22_800).expect(&rt, "06:20");
/// let view = board.view(&Call::Tick(at)).expect(&rt, "memory");
/// assert!(&rt; board.same(&view));
/// let mut change = Change::new(alloc);
/// change.set_clock(at);
/// board.fits(1, &change).expect(&rt, "memory");
/// board.apply(1, change);
/// assert!(&rt; board.clock() == at && !board.same(&view));
/// ```
pub struct Board<K: Store> {
    pub(crate) alloc: Global,
    pub(crate) store: K,
    pub(crate) items: Items<K::Version>,
    ghost orderly: { IsOrderly K.Version.item_of (versions items) } by { Prim.hlevel props },
}

impl<K: Store> Drop for Board<K> {
    fn drop(self) {
        let Board {
            alloc: _,
            store: _,
            items: _,
        } = self;
    }
}

impl<K: Store> Board<K> {
    ghost use Rattle.casa_view.specs.BoardState.{opening};

    /// The board with the clock at midnight and no regulation and no flight, over this store. `AllocError` where there is
    /// no memory for it.
    pub fn new(alloc: Global, store: K) -> Result<Board<K>, AllocError>
        ensures { IfOk result (λ board. ⟦<Board<K> as World>⟧.state board ≡ opening) }
    {
        let mut store = store;
        let clock = store.put(0, Arc::new(alloc, Item::Clock(Moment::new(0).unwrap()))?)?;
        let none = Item::Catalogue(Catalogue::new(alloc));
        let catalogue = store.put(0, Arc::new(alloc, none)?)?;
        let items = Items {
            clock,
            next_clock: None,
            catalogue,
            next_catalogue: None,
            rows: Table::new(alloc)?,
            lists: Table::new(alloc)?,
            spare: Spare::new(alloc)?,
        };
        Ok(Board {
            alloc,
            store,
            items,
        })
    }
}

impl<K: Store> Board<K> {
    /// A board that stands as this one does, and changes apart from it. What both have now they share: this takes no longer
    /// for many items than for few. `AllocError` where there is no memory for it.
    ///
    /// While it is there, what changes on either board lies beside what they share, and so costs more.
    pub fn fork(&self) -> Result<Board<K>, AllocError>
        ensures { IfOk result (λ board. ⟦<Board<K> as World>⟧.state board
            ≡ ⟦<Board<K> as World>⟧.state self.now) }
    {
        let items = self.items.fork(self.alloc)?;
        Ok(Board {
            alloc: self.alloc,
            store: self.store.again(),
            items,
        })
    }
}

impl<K: Store> Board<K> {
    ghost use Rattle.std.specs.Option.{option_copied};
    ghost use Rattle.casa_flight.specs.State.{row_of};

    /// The clock.
    pub fn clock(&self) -> Moment
        ensures { result ≡ (⟦<Board<K> as World>⟧.state self.now).state.clock }
    {
        clock_in(self.items.clock.item())
    }

    /// The open regulations.
    pub fn catalogue(&self) -> &[Regulation]
        ensures { result.now ≡ (⟦<Board<K> as World>⟧.state self.now).catalogue }
    {
        regulations_in(self.items.catalogue.item())
    }

    /// The row of the flight with this key.
    pub fn row(&self, key: &Key) -> Option<&Row>
        ensures { option_copied result
            ≡ row_of (⟦<Board<K> as World>⟧.state self.now).state key.now }
    {
        row_in(self.items.rows.get(key)?.item())
    }

    /// The list of the regulation with this identifier.
    pub fn list(&self, id: &RegId) -> Option<&SlotList>
        ensures { option_copied result ≡ (⟦<Board<K> as World>⟧.state self.now).list id.now }
    {
        list_in(self.items.lists.get(id)?.item())
    }

    /// The same list as it is shared, so that others may have it too.
    pub fn shared_list(&self, id: &RegId) -> Option<&SharedList>
        ensures { option_copied result ≡ (⟦<Board<K> as World>⟧.state self.now).list id.now }
    {
        shared_list_in(self.items.lists.get(id)?.item())
    }
}

impl<K: Store> World for Board<K> {
    ghost use Rattle.casa_view.specs.Board.{next_versions};
    ghost use Rattle.casa_plan_spec.specs.Sight.{says};
    ghost use Rattle.casa_footprint.specs.Change.{IsChange};
    ghost use Rattle.casa_view.specs.Change.{IsApplied};
    ghost use Rattle.casa_view.specs.Sets.{board_state_set};
    ghost use Rattle.casa_view.specs.BoardState.{BoardState, IsGoodBoard, board_state, opening, after, reply};
    ghost use Rattle.casa_view.specs.View.{IsFor, IsViewOf, IsCurrent, Shows};
    ghost use Rattle.casa_view.specs.Applied.{applied};
    ghost use Rattle.casa_flight.specs.Listing.{list_of};
    ghost use Rattle.casa_item.specs.Versions.{list_at};
    ghost use Rattle.casa_view.specs.Alike.{like_applied, like_state, like_views};
    ghost use Rattle.casa_view.specs.Kept.{says_kept_lists};
    ghost use Rattle.casa_view.specs.GoodBoard.{opening_is_good, after_is_good};

    type Call = Call;

    type View = View<K::Version>;

    type Change = Change;

    type Reply = Reply;

    ghost state_type = { BoardState };

    ghost state_set = { board_state_set };

    ghost state = { λ w. board_state K.Version.item_of K.Version.stamp_of (versions w.items) };

    ghost opening = { opening };

    ghost after = { after };

    ghost reply = { reply };

    ghost good = { IsGoodBoard };

    ghost is_for = { λ v c. IsFor K.Version.item_of v c };

    ghost is_of = { λ v w. Unit {0} };

    ghost is_current = { λ w v. IsCurrent K.Version.is_same (versions w.items) v };

    ghost shows = { λ s v. Shows K.Version.item_of s.state v };

    ghost changes = { λ s c d. IsChange s.state c (says (list_of s.state) d) };

    ghost same_but_capacity = { λ w x. versions x.items ≡ versions w.items };

    ghost has_room = { λ w n d. IsApplied K.Version.item_of K.Version.stamp_of (says (list_at K.Version.item_of (versions w.items)) d) n (versions w.items) (next_versions w.items) };

    ghost applied = { λ w n d x. IsApplied K.Version.item_of K.Version.stamp_of (says (list_at K.Version.item_of (versions w.items)) d) n (versions w.items) (versions x.items) };

    /// What the call reads, with the present versions: on a board that stands well these items, and no others.
    /// `AllocError` where there is no memory for it.
    fn view(&self, call: &Call) -> Result<View<K::Version>, AllocError>
        ensures reads { IfOk result (λ v. IsGoodBoard (⟦<Board<K> as World>⟧.state self.now) →
            IsViewOf K.Version.item_of (⟦<Board<K> as World>⟧.state self.now).state call.now v) }
        ensures current { IfOk result (λ v.
            IsCurrent K.Version.is_same (versions self.now.items) v) }
    {
        let view = self.items.view(self.alloc, call)?;
        Ok(view)
    }

    fn same(&self, view: &View<K::Version>) -> bool {
        same_items(&self.items, view)
    }

    fn consolidate(&mut self, call: &Call) -> Result<(), AllocError> {
        self.items.consolidate()?;
        if may_read_all(call) {
            self.items.seal(&mut self.store)?;
        }
        Ok(())
    }

    fn fits(&mut self, position: usize, change: &Change) -> Result<(), AllocError> {
        fit(
            self.alloc,
            &mut self.store,
            &mut self.items,
            position,
            change,
        )
    }

    fn apply(&mut self, _position: usize, _change: Change) {
        self.items.adopt();
    }

    /// Where a call says of one flight how it is to stand in lists, these are changed where they lie, if nobody else has the
    /// table of them.
    fn write(&mut self, position: usize, change: Change) -> Result<(), Change> {
        let (store, items) = (&mut self.store, &mut self.items);
        match write(self.alloc, store, items, position, &change) {
            Ok(()) => Ok(()),
            Err(_) => Err(change),
        }
    }

    fn copy_call(call: &Call) -> Result<Call, AllocError> {
        call.try_clone()
    }

    fn copy_reply(answer: &Reply) -> Result<Reply, AllocError> {
        answer.try_clone()
    }

    ghost good_opening = { opening_is_good };

    ghost good_after = { after_is_good };

    ghost applied_after = { λ w n c d x well is done.
        applied K.Version.item_of K.Version.stamp_of (versions w.items) (versions x.items) n c (says (list_at K.Version.item_of (versions w.items)) d) well
        (says_kept_lists d c well is) done };

    ghost alike_applied = { λ w x n d y same done.
        like_applied (versions w.items) (versions x.items) same K.Version.item_of K.Version.stamp_of
        (λ vs. says (list_at K.Version.item_of vs) d) n (versions y.items) done };

    ghost alike_same = { λ w. refl };

    ghost alike_state = { λ w x same. like_state (versions w.items) (versions x.items) same K.Version.item_of K.Version.stamp_of };

    ghost alike_views = { λ w x v same.
        ((λ _. tt, λ _. tt), like_views (versions w.items) (versions x.items) same K.Version.is_same v) };

    ghost applied_views = { λ w n d x v done. (λ _. tt, λ _. tt) };
}
