// Two messages of one memory change places.
ghost use Rattle.std.specs.Prelude.{◌≡◌, ◌+◌, ◌≤◌, ◌<◌, ◌%◌, ◌^◌, ◌∷◌, [], ℕ, List, Some, length};
ghost use Rattle.std.specs.FinMap as fin;
ghost use Rattle.arena_mem.specs.Places.{IsLive, used};
ghost use Rattle.pb_schema.specs.Tree.{Shape};
ghost use Rattle.dyn_message.specs.Feet.{Foot, InPlace, Separate};
ghost use Rattle.dyn_message.specs.Slots.{part};
ghost use Rattle.dyn_message.specs.Stands.{Stands};
ghost use Rattle.dyn_message.specs.Changes.{Changes};
ghost use Rattle.msg_move.specs.Swapped.{AreSwapped, Exchanged, with_part};

use arena_mem::{Memory, Place};
use dyn_message::MsgRef;
use msg_layout::tables::Layouts;

/// How many bytes of two records are exchanged at once. It divides the size of each record.
const PIECE: usize = 8;

/// Two messages of one type change places: each stands then for what the other one stood for, on its own record and on
/// what the other had behind its. They share no place or buffer. It takes no memory.
pub fn swap_same<M: Memory>(mem: &mut M, types: &Layouts, one: MsgRef, two: MsgRef)
    requires stand { (t : Shape) × (feet : List Foot) × (u : Shape) × (own : List Foot)
        × Stands types.now (M.places mem.old) (M.buffers mem.old) one t feet
        × Stands types.now (M.places mem.old) (M.buffers mem.old) two u own × Separate feet own }
    requires one_type { two.type_no ≡ one.type_no }
    ensures swapped { (t : Shape) (feet : List Foot) (u : Shape) (own : List Foot)
        → Stands types.now (M.places mem.old) (M.buffers mem.old) one t feet
        → Stands types.now (M.places mem.old) (M.buffers mem.old) two u own → Separate feet own
        → AreSwapped types.now (M.places mem.new) (M.buffers mem.new) one two t feet u own }
    ensures changes { Changes M.key M.places M.buffers M.blocks 0 0 (InPlace one.place ∷ InPlace two.place ∷ []) mem.old mem.new }
    ensures space { used (M.places mem.new) ≡ used (M.places mem.old) }
    ensures buffers { M.buffers mem.new ≡ M.buffers mem.old }
{
    let _schema = types.schema();
    exchange(mem, one.place, two.place);
}

// Exchanges the bytes of two places of one length.
fn exchange<M: Memory>(mem: &mut M, one: Place, two: Place)
    requires one_live { IsLive (M.places mem.old) one }
    requires two_live { IsLive (M.places mem.old) two }
    requires differ { one ≡ two → ⊥ }
    requires len { two.len ≡ one.len }
    requires one_size { (b : List ℕ) → fin.get (M.places mem.old) one ≡ Some b → length b ≡ one.len }
    requires two_size { (b : List ℕ) → fin.get (M.places mem.old) two ≡ Some b → length b ≡ one.len }
    requires whole { one.len % 8 ≡ 0 }
    requires small { one.len < 2 ^ 25 }
    ensures { Exchanged M.key M.places M.buffers M.blocks one two (λ own other. other) mem.old mem.new }
{
    let mut at = 0;
    while at < one.len {
        exchange_piece(mem, one, two, at);
        at += PIECE as u32;
    }
}

// Exchanges the eight bytes of two places that begin here.
fn exchange_piece<M: Memory>(mem: &mut M, one: Place, two: Place, at: u32)
    requires one_live { IsLive (M.places mem.old) one }
    requires two_live { IsLive (M.places mem.old) two }
    requires differ { one ≡ two → ⊥ }
    requires len { two.len ≡ one.len }
    requires fits { at + 8 ≤ one.len }
    requires small { one.len < 2 ^ 25 }
    ensures { Exchanged M.key M.places M.buffers M.blocks one two (with_part at) mem.old mem.new }
{
    let own = piece_at(mem.read(one), at);
    let other = piece_at(mem.read(two), at);
    mem.write(one, at, &other);
    mem.write(two, at, &own);
}

// The eight bytes that begin here.
fn piece_at(bytes: &[u8], at: u32) -> [u8; 8]
    requires within { at + 8 ≤ length bytes.now }
    requires small { at < 2 ^ 31 }
    ensures { result ≡ part at 8 bytes.now }
{
    let start = at as usize;
    let mut piece = [0u8; PIECE];
    piece.copy_from_slice(&bytes[start..start + PIECE]);
    piece
}
