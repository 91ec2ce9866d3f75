//! A file in memory of which a crash leaves all that the contract of a tape allows, of calls that end well.

ghost use Rattle.std.specs.Prelude.{◌≡◌, ◌≤◌, ◌↔◌, [], ◌∷◌, ◌++◌, List, ℕ, length, take, drop, IfOk, OnOk, OnErr};
ghost use Rattle.casa_tape.specs.Tape.{CutTo, Elapses, Follows, HasCause, TornBehind};
ghost use Rattle.casa_tape.specs.Memory.{shown_bytes, left_by, left_with, standings, WasLeft};
ghost use Rattle.casa_tape.specs.Standings.{shown_left, left_now, left_only_now, left_earlier};

use crate::tape::{Tape, TapeError};
use std::alloc::{AllocError, Global};
use std::mem::replace;

/// How a file stands: the bytes that are on the disk, and those of which a crash leaves a beginning, perhaps with holes. A
/// read returns the first so many of these, too.
#[derive(Drop)]
pub struct Standing {
    solid: Vec<u8>,
    loose: Vec<u8>,
    shown: usize,
}

/// A tape in memory. It never fails, and keeps how it stood at each moment.
#[derive(Drop)]
pub struct MemoryTape {
    alloc: Global,
    state: Standing,
    past: Vec<Standing>,
}

impl Standing {
    /// What a read returns.
    fn bytes(&self, alloc: Global) -> Result<Vec<u8>, AllocError>
        ensures { IfOk result (λ bytes. bytes.items ≡ shown_bytes self.now) }
    {
        let mut bytes = self.solid.to_vec(alloc)?;
        let shown = self.shown.min(self.loose.len());
        bytes.extend_from_slice(&self.loose[..shown])?;
        Ok(bytes)
    }
}

impl MemoryTape {
    /// A file with these bytes, all of them on the disk.
    pub fn new(alloc: Global, bytes: Vec<u8>) -> Self
        ensures shown { shown_bytes result.state ≡ bytes.items }
        ensures synced { (c : List ℕ) → left_by result.state c → c ≡ shown_bytes result.state }
    {
        MemoryTape {
            alloc,
            state: Standing {
                solid: bytes,
                loose: Vec::new(alloc),
                shown: 0,
            },
            past: Vec::new(alloc),
        }
    }

    /// The bytes that a crash leaves of which nothing but so many bytes since the last sync came to the disk.
    pub fn crashed(&self, alloc: Global, kept: usize) -> Result<Vec<u8>, AllocError>
        ensures bytes { IfOk result (λ bytes. bytes.items ≡ left_with self.now.state kept) }
        ensures left { IfOk result (λ bytes. left_by self.now.state bytes.items) }
    {
        let mut bytes = self.state.solid.to_vec(alloc)?;
        let kept = kept.min(self.state.loose.len());
        bytes.extend_from_slice(&self.state.loose[..kept])?;
        Ok(bytes)
    }

    /// Lets the file stand otherwise.
    fn change(&mut self, next: Standing) -> Result<(), AllocError>
        ensures ok { OnOk result ((self.new.state ≡ next) × (self.new.past.items ≡ self.old.past.items ++ self.old.state ∷ [])) }
        ensures err { OnErr result ((self.new.state ≡ self.old.state) × (self.new.past.items ≡ self.old.past.items)) }
    {
        self.past.reserve(1)?;
        let old = replace(&mut self.state, next);
        self.past.push_reserved(old);
        Ok(())
    }
}

impl Tape for MemoryTape {
    ghost holds = { λ m xs. xs ≡ shown_bytes m.state };

    ghost may_leave = { λ m c. left_by m.state c };

    ghost moment = { λ m. length m.past.items };

    ghost left_since = { λ m. WasLeft (standings m) };

    ghost has_failed = { λ m. ⊥ };

    ghost may_leave_all = { λ m xs is. shown_left m.state xs is };

    ghost counts_now = { λ m t c le now. left_now m.past.items m.state t c le now };

    ghost only_now = { λ m c left. left_only_now m.past.items m.state c left };

    ghost since_earlier = { λ m t u c le left. left_earlier (standings m) t u c le left };

    // As a tape has it, and nothing gets to the disk by it.
    fn read(&mut self, alloc: Global) -> Result<Vec<u8>, TapeError>
        ensures bytes { IfOk result (λ bytes. (xs : List ℕ) → xs ≡ shown_bytes self.old.state
            → bytes.items ≡ xs) }
        ensures held { (xs : List ℕ) → xs ≡ shown_bytes self.new.state ↔ xs ≡ shown_bytes self.old.state }
        ensures crash { (left : List ℕ) → left_by self.new.state left → left_by self.old.state left }
        ensures time { Elapses (length self.old.past.items) (length self.new.past.items)
            (WasLeft (standings self.old)) (WasLeft (standings self.new)) (left_by self.new.state) }
        ensures cause { HasCause ⊥ ⊥ result }
        ensures same { self.new ≡ self.old }
    {
        Ok(self.state.bytes(alloc)?)
    }

    // As a tape has it, and until a sync a crash may leave each torn part.
    fn append(&mut self, bytes: &[u8]) -> Result<(), TapeError>
        ensures written { OnOk result ((ys : List ℕ) → ys ≡ shown_bytes self.new.state →
            (xs : List ℕ) × (xs ≡ shown_bytes self.old.state) × (ys ≡ xs ++ bytes.now)) }
        ensures crash { Follows (TornBehind bytes.now) (left_by self.old.state) (left_by self.new.state) }
        ensures time { Elapses (length self.old.past.items) (length self.new.past.items)
            (WasLeft (standings self.old)) (WasLeft (standings self.new)) (left_by self.new.state) }
        ensures cause { HasCause ⊥ ⊥ result }
        ensures tears { OnOk result ((left : List ℕ)
            → TornBehind bytes.now (shown_bytes self.old.state) left → left_by self.new.state left) }
    {
        let solid = self.state.bytes(self.alloc)?;
        let loose = bytes.to_vec(self.alloc)?;
        let shown = loose.len();
        self.change(Standing {
            solid,
            loose,
            shown,
        })?;
        Ok(())
    }

    // As a tape has it, and until a sync a crash may leave each torn part of what stood behind.
    fn cut(&mut self, len: usize) -> Result<(), TapeError>
        requires within { (xs : List ℕ) → xs ≡ shown_bytes self.old.state → len ≤ length xs }
        ensures cut { OnOk result ((ys : List ℕ) → ys ≡ shown_bytes self.new.state →
            (xs : List ℕ) × (xs ≡ shown_bytes self.old.state) × (ys ≡ take len xs)) }
        ensures crash { Follows (CutTo len) (left_by self.old.state) (left_by self.new.state) }
        ensures time { Elapses (length self.old.past.items) (length self.new.past.items)
            (WasLeft (standings self.old)) (WasLeft (standings self.new)) (left_by self.new.state) }
        ensures cause { HasCause ⊥ ⊥ result }
        ensures tears { OnOk result ((left : List ℕ)
            → CutTo len (shown_bytes self.old.state) left → left_by self.new.state left) }
    {
        let mut solid = self.state.bytes(self.alloc)?;
        let loose = solid[len..].to_vec(self.alloc)?;
        solid.truncate(len);
        self.change(Standing {
            solid,
            loose,
            shown: 0,
        })?;
        Ok(())
    }

    fn sync(&mut self) -> Result<(), TapeError> {
        let solid = self.state.bytes(self.alloc)?;
        self.change(Standing {
            solid,
            loose: Vec::new(self.alloc),
            shown: 0,
        })?;
        Ok(())
    }
}
