//! A search for the enabled event of a number, over events in their order.
ghost use Rattle.std.specs.Prelude.{◌≡◌};
ghost use Rattle.cluster_world.specs.Searching.{next, is_found, left};

use cluster_msgs::Event;

/// Where a search stands: so many enabled events are still to be passed, or the event is found.
#[derive(Drop)]
pub enum Search {
    Passing(u64),
    Found(Event),
}

impl Search {
    /// Passes one more event, or finds it, where it is enabled.
    pub fn next(self, enabled: bool, e: Event) -> Search
        ensures { result ≡ next self enabled e }
    {
        match self {
            Search::Passing(left) => {
                if !enabled {
                    Search::Passing(left)
                } else if left == 0 {
                    Search::Found(e)
                } else {
                    Search::Passing(left - 1)
                }
            }
            Search::Found(found) => Search::Found(found),
        }
    }

    /// Whether the event is found.
    pub fn is_found(&self) -> bool
        ensures { result ≡ is_found self.now }
    {
        match self {
            Search::Passing(_) => false,
            Search::Found(_) => true,
        }
    }

    /// How many enabled events are still to be passed: none once the event is found.
    pub fn left(&self) -> u64
        ensures { result ≡ left self.now }
    {
        match self {
            Search::Passing(left) => *left,
            Search::Found(_) => 0,
        }
    }
}
