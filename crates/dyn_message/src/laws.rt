//! Laws of what messages stand for, each the contract of a function that does nothing.
ghost use Rattle.std.specs.Prelude.{◌≡◌, ◌+◌, ◌*◌, ◌≤◌, ℕ, List, IsSome, length};
ghost use Rattle.std.specs.List.{concat};
ghost use Rattle.arena_mem.specs.Grows.{Grows};
ghost use Rattle.arena_mem.specs.Places.{Places, Buffers};
ghost use Rattle.pb_schema.specs.declared.schema.Schema.{Schema};
ghost use Rattle.pb_schema.specs.Tree.{Shape, Tree};
ghost use Rattle.pb_schema.specs.Units.{tree_units};
ghost use Rattle.dyn_message.specs.declared.msg_ref.MsgRef.{MsgRef};
ghost use Rattle.dyn_message.specs.Feet.{Foot, InPlace, AreThere, IsAmong, KeepsOthers, OldOrFresh, SameAt, Separate, foot_bytes};
ghost use Rattle.dyn_message.specs.Stands.{Stands, StandsFor};
ghost use Rattle.dyn_message.specs.Changes.{Changes};

use arena_mem::Memory;

/// What a message stands for depends on the bytes at its feet alone.
pub fn same_bytes_stand()
    ensures { (schema : Schema) (places places' : Places) (buffers buffers' : Buffers) (msg : MsgRef) (t : Shape) (feet : List Foot)
        → Stands schema places buffers msg t feet → SameAt places buffers places' buffers' feet
        → Stands schema places' buffers' msg t feet }
{}

/// Over one memory a message stands for one shape, on one list of feet.
pub fn one_shape_stands()
    ensures { (schema : Schema) (places : Places) (buffers : Buffers) (msg : MsgRef) (t u : Shape) (feet others : List Foot)
        → Stands schema places buffers msg t feet → Stands schema places buffers msg u others
        → (u ≡ t) × (others ≡ feet) }
{}

/// Over one memory a message stands for one tree, on one list of feet.
pub fn one_tree_stands()
    ensures { (schema : Schema) (places : Places) (buffers : Buffers) (msg : MsgRef) (tree other : Tree) (feet others : List Foot)
        → StandsFor schema places buffers msg tree feet → StandsFor schema places buffers msg other others
        → (other ≡ tree) × (others ≡ feet) }
{}

/// The places that a message stands on are live, and the buffers are kept.
pub fn feet_are_there()
    ensures { (schema : Schema) (places : Places) (buffers : Buffers) (msg : MsgRef) (t : Shape) (feet : List Foot)
        → Stands schema places buffers msg t feet → AreThere places buffers feet }
{}

/// A message stands on its own record.
pub fn record_is_a_foot()
    ensures { (schema : Schema) (places : Places) (buffers : Buffers) (msg : MsgRef) (t : Shape) (feet : List Foot)
        → Stands schema places buffers msg t feet → IsAmong (InPlace msg.place) feet }
{}

/// A change of a memory that keeps all but some other feet leaves a message as it was: so a message stands where
/// something is placed or kept, and where another message is changed that shares no foot with it.
pub fn strangers_change_nothing()
    ensures { (schema : Schema) (places places' : Places) (buffers buffers' : Buffers) (msg : MsgRef) (t : Shape) (feet others : List Foot)
        → Stands schema places buffers msg t feet → KeepsOthers places buffers places' buffers' others → Separate feet others
        → Stands schema places' buffers' msg t feet }
{}

/// A message stands on no more places and buffers than twice its units.
pub fn feet_are_few()
    ensures { (schema : Schema) (places : Places) (buffers : Buffers) (msg : MsgRef) (t : Shape) (feet : List Foot)
        → Stands schema places buffers msg t feet → length feet ≤ 2 * tree_units (λ pieces. length (concat pieces)) t }
{}

/// A message that shares no foot with another shares none with what the other stands on after a call.
pub fn separate_messages_stay()
    ensures { (schema : Schema) (places : Places) (buffers : Buffers) (msg : MsgRef) (t : Shape) (feet before now : List Foot)
        → Stands schema places buffers msg t feet → Separate feet before → OldOrFresh places buffers before now
        → Separate feet now }
{}

/// What was old or fresh twice, one after the other, is old or fresh, where nothing that was there went away.
pub fn old_or_fresh_joins()
    ensures { (places places' : Places) (buffers buffers' : Buffers) (before between now : List Foot)
        → ((foot : Foot) → IsSome (foot_bytes places buffers foot) → IsSome (foot_bytes places' buffers' foot))
        → OldOrFresh places buffers before between → OldOrFresh places' buffers' between now
        → OldOrFresh places buffers before now }
{}

/// A growth changes no foot.
pub fn growth_changes<M: Memory>(mem: &M)
    ensures { (old : M) (p a : ℕ) (feet : List Foot) → Grows M.key M.places M.buffers M.blocks p a old mem.now
        → Changes M.key M.places M.buffers M.blocks p a feet old mem.now }
{}

/// Two changes, one after the other, are one, by the sums.
pub fn changes_join<M: Memory>(mem: &M)
    ensures { (old mid : M) (p q a b : ℕ) (feet : List Foot) → Changes M.key M.places M.buffers M.blocks p a feet old mid
        → Changes M.key M.places M.buffers M.blocks q b feet mid mem.now
        → Changes M.key M.places M.buffers M.blocks (p + q) (a + b) feet old mem.now }
{}

/// A change of some feet, by so many, is one of more feet, by more.
pub fn changes_widen<M: Memory>(mem: &M)
    ensures { (old : M) (p q a b : ℕ) (feet more : List Foot) → Changes M.key M.places M.buffers M.blocks p a feet old mem.now
        → p ≤ q → a ≤ b → ((foot : Foot) → IsAmong foot feet → IsAmong foot more)
        → Changes M.key M.places M.buffers M.blocks q b more old mem.now }
{}
