//! Laws of values and of streams, each the contract of a function that does nothing.

ghost use Rattle.std.specs.Prelude.{◌≡◌, ℕ, ◌++◌, List, None};
ghost use Rattle.msgpack_frames.specs.Data.{Data, IsShort};
ghost use Rattle.msgpack_frames.specs.Encoding.{Encodes};
ghost use Rattle.msgpack_frames.specs.Groups.{Group, Progress, IsReading};

/// The front of some bytes is one value at most, of one length.
pub fn one_value()
    ensures { (a b x y : List ℕ) (c d : Data) → IsShort c → IsShort d → Encodes c a → Encodes d b → a ++ x ≡ b ++ y → (a ≡ b) × (c ≡ d) }
{}

/// Two readers that were fed one stream, in whatever pieces, give the same groups, taken or still ready,
/// and refuse the same.
pub fn any_cut()
    ensures { (stream : List ℕ) (taken others : List Group) (p q : Progress) → IsReading stream taken p → IsReading stream others q
        → (taken ++ p.ready ≡ others ++ q.ready) × (p.fault ≡ q.fault) × (p.fault ≡ None → p.rest ≡ q.rest) }
{}
