// Where text goes, from its end to its start.
ghost use Rattle.std.specs.Prelude.{◌≡◌, ◌^◌, ◌<◌, ℕ, List, length, OnOk};
ghost use Rattle.pb_schema.specs.Varint.{varint_of};
ghost use Rattle.pb_write.specs.Puts.{Gains};

/// What takes text from its end to its start. So a message's length is known when it has to be put in front of it.
pub(crate) trait Target {
    /// Why something wasn't taken.
    type Refusal;

    // What was taken may be this text.
    ghost holds: { Self → List ℕ → Type 0 };

    /// Puts these bytes in front of what was taken.
    fn put_bytes(&mut self, bytes: &[u8]) -> Result<(), Self::Refusal>
        ensures { OnOk result (Gains (holds self.old) (holds self.new) bytes.now) };

    /// Puts the shortest varint of a value in front of what was taken.
    fn put_varint(&mut self, value: u64) -> Result<(), Self::Refusal>
        ensures { OnOk result (Gains (holds self.old) (holds self.new) (varint_of value)) };

    /// How many bytes were taken.
    fn len(&self) -> u64
        ensures { (s : List ℕ) → holds self.now s → length s < 2 ^ 63 → result ≡ length s };
}
