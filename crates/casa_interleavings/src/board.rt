//! The board, whose versions follow the stamps that its history gives.

ghost use Rattle.std.proofs.Common.{subst, sym};
ghost use Rattle.casa_view.specs.Board.{versions};
ghost use Rattle.casa_item.specs.Versions.{Versions};
ghost use Rattle.casa_interleavings.specs.Board.{HasSameStamps};
ghost use Rattle.casa_interleavings.specs.Tied.{IsViewAfter, IsTied, present_view, current_unmoved, applied_tied};

use crate::stamped::Stamped;
use casa_view::{Board, Store};

impl<K: Store> Stamped for Board<K> {
    ghost is_unmoved = { HasSameStamps };

    ghost is_view_of = { IsViewAfter K.Version.item_of K.Version.stamp_of };

    ghost is_tied = { λ v w. IsTied K.Version.is_same K.Version.stamp_of (versions w.items) v };

    ghost present_view = { λ w c v es is for_call of_world current shown.
        present_view K.Version.item_of K.Version.stamp_of K.Version.is_same K.Version.same_stamp (versions w.items) es is
        w.orderly v c for_call current shown };

    ghost present_tied = { λ w v of_world current. λ i x holds stamped. current i x holds };

    ghost alike_tied = { λ w x v same tied.
        subst (λ (vs : Versions K.Version). IsTied K.Version.is_same K.Version.stamp_of vs v) (sym same) tied };

    ghost applied_tied = { λ w n d x c v before later is number of_world seen done tied.
        applied_tied K.Version.item_of K.Version.stamp_of K.Version.is_same K.Version.same_stamp before c v seen later
        (versions w.items) (versions x.items) n _ number done tied };

    ghost current_unmoved = { λ w c v before later is of_world tied seen.
        current_unmoved K.Version.item_of K.Version.stamp_of K.Version.is_same K.Version.same_stamp (versions w.items) before
        later c v is tied seen };
}
