//! The fields of messages.

ghost use Rattle.std.specs.Prelude.{◌≡◌};
ghost use Rattle.wire_msgs.specs.Names.{name};

use std::fmt;

/// A field of a message, by its name in the map.
#[derive(Clone, Copy, Debug)]
pub enum Field {
    Op,
    Seen,
    Key,
    Attempt,
    WhoHas,
    Keys,
    Holder,
    Copy,
    Yes,
    Holders,
    Blame,
    Ask,
    Found,
    Role,
    Id,
}

impl Field {
    /// The name, as it stands in the map.
    #[tactic(auto, unfolding(crate::specs::Names::name))]
    pub fn name(self) -> &'static str
        ensures { result.now ≡ name self }
    {
        match self {
            Field::Op => "op",
            Field::Seen => "seen",
            Field::Key => "key",
            Field::Attempt => "attempt",
            Field::WhoHas => "who_has",
            Field::Keys => "keys",
            Field::Holder => "holder",
            Field::Copy => "copy",
            Field::Yes => "yes",
            Field::Holders => "holders",
            Field::Blame => "blame",
            Field::Ask => "ask",
            Field::Found => "found",
            Field::Role => "role",
            Field::Id => "id",
        }
    }
}

impl fmt::Display for Field {
    fn fmt<W: fmt::Write>(&self, f: &mut fmt::Formatter<W>) -> fmt::Result {
        f.write_str(self.name())
    }
}
