ghost use Rattle.std.specs.Prelude.{◌≡◌};

use reply_places::Joined;
use std::marker::Model;

/// The replies of a served run, seen by contracts as the list of their bytes. They lie in one
/// allocation, in which each was written in its place.
#[derive(Drop)]
pub struct Replies {
    joined: Joined,
}

impl Model for Replies {
    ghost use Rattle.std.specs.Prelude.{ℕ, List};

    ghost Value = { List ℕ };

    ghost view = { λ r. r.joined };
}

impl Replies {
    /// The replies that are these bytes.
    pub fn from_joined(joined: Joined) -> Replies
        ensures { result ≡ joined }
    {
        Replies { joined }
    }

    /// Their bytes.
    pub fn as_slice(&self) -> &[u8]
        ensures { result.now ≡ self.now }
    {
        self.joined.as_slice()
    }
}
