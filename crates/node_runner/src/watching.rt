//! How a driver waits for the keys that the client wants, and hands on the blocks that come.
ghost use Rattle.std.specs.Prelude.{◌≡◌};

use crate::sink::Sink;
use client_futures::{KeyFuture, PollEnd, Rounds, RunOver, Sight};
use cluster_msgs::{End, Label};
use driver_rows::{Drives, Waits};
use futures::task::{Poll, Solo};
use node_links::Keyed;
use node_states::ClientNode;
use std::alloc::Global;
use std::sync::{Arc, Wait};

/// What a driver saw of the wanted keys in the client's turns: of those from the first on up to the first that hadn't ended, so that all turns together
/// look at each key once. That of the driver which waits takes the blocks that come, one in a round.
#[derive(Drop)]
pub struct Watch<B: Drop, L: Label<Block = B>> {
    sight: Sight<()>,
    /// What stands in the sight for each block that was got, since the blocks are handed on.
    got: Option<Arc<()>>,
    /// The place of the first wanted key that wasn't seen to end.
    front: usize,
    takes: bool,
    brought: Option<Keyed<B, L>>,
    /// A key whose block was handed on, which the client is to let go.
    given: Option<u32>,
    /// The client is to go on no more.
    quits: bool,
}

impl<B: Drop, L: Label<Block = B>> Watch<B, L> {
    /// One that sees nothing and takes nothing: it is past all keys from the start. It takes no memory.
    pub fn blind(alloc: Global) -> Watch<B, L> {
        Watch {
            sight: Sight::blind(alloc),
            got: None,
            front: usize::MAX,
            takes: false,
            brought: None,
            given: None,
            quits: false,
        }
    }

    /// One that takes the blocks that come, and sees keys below this number, or none where there is no memory.
    pub fn taking(alloc: Global, keys: u32) -> Watch<B, L> {
        let sight = match Sight::new(alloc, keys) {
            Ok(sight) => sight,
            Err(_) => Sight::blind(alloc),
        };
        Watch {
            sight,
            got: Arc::new(alloc, ()).ok(),
            front: 0,
            takes: true,
            brought: None,
            given: None,
            quits: false,
        }
    }

    /// Looks at the wanted keys, in a turn of the client, has it let the key go whose block was handed on, and takes a block that came. Whether it took
    /// one.
    pub fn look(&mut self, client: &mut ClientNode<B, L>, wanted: &[u32]) -> bool
        ensures { client.new.book ≡ client.old.book }
    {
        self.see(&*client, wanted);
        if self.quits {
            client.give_up();
        }
        self.let_go(client);
        if !self.takes || self.brought.is_some() || self.given.is_some() {
            return false;
        }
        self.brought = client.hand_over();
        self.brought.is_some()
    }

    /// Has the client let the key go whose block was handed on, unless it is to let another go first.
    fn let_go(&mut self, client: &mut ClientNode<B, L>)
        ensures { client.new.book ≡ client.old.book }
    {
        if let Some(key) = self.given {
            if client.let_go(key) {
                self.given = None;
            }
        }
    }

    /// Notes which keys have ended.
    fn see(&mut self, client: &ClientNode<B, L>, wanted: &[u32]) {
        for at in self.front..wanted.len() {
            if !self.has_ended(client, wanted[at]) {
                return;
            }
            self.front = at + 1;
        }
    }

    /// Whether a key has ended, which is noted. One that was let go was got.
    fn has_ended(&mut self, client: &ClientNode<B, L>, key: u32) -> bool {
        match client.end(key) {
            Some(End::Got) => self.note_got(key),
            Some(End::Erred { blame }) => self.sight.note_erred(key, blame),
            None => client.has_let_go(key) && self.note_got(key),
        }
    }

    /// Notes that a key was got. Whether it could.
    fn note_got(&mut self, key: u32) -> bool {
        let Some(got) = &self.got else {
            return false;
        };
        match Arc::try_clone(got) {
            Ok(got) => self.sight.note_got(key, got),
            Err(_) => false,
        }
    }
}

/// A driver by which futures over the wanted keys wait, and where the blocks go.
struct Waiting<'a, B: Drop, L: Label<Block = B>, D, Z> {
    driver: &'a mut D,
    watch: Watch<B, L>,
    sink: Z,
}

impl<B: Drop, L: Label<Block = B>, D: Drives<Watch<B, L>>, Z: Sink<B, L>> Waiting<'_, B, L, D, Z> {
    /// Hands the block on that was taken in this round.
    fn hand_on(&mut self)
        ensures leads { Z.leads self.old.sink self.new.sink }
        ensures same { self.new.watch.sight ≡ self.old.watch.sight }
    {
        if let Some(keyed) = self.watch.brought.take() {
            let key = keyed.key();
            self.sink.take(key, keyed.into_block());
            self.watch.quits = self.sink.is_full();
            self.watch.given = Some(key);
        }
    }

    /// Polls a future over each key in turn, where there is room for it, until one of them fails or the run is over.
    fn wait_for<R: Wait>(&mut self, rt: &R, room: Option<&Solo>, wanted: &[u32])
        ensures leads { Z.leads self.old.sink self.new.sink }
    {
        let Some(room) = room else {
            return;
        };
        for key in wanted {
            if !self.wait_for_key(rt, room, *key) {
                return;
            }
        }
    }

    /// Polls a future over a key until it ends. Whether the key was got.
    fn wait_for_key<R: Wait>(&mut self, rt: &R, room: &Solo, key: u32) -> bool
        ensures leads { Z.leads self.old.sink self.new.sink }
    {
        let mut future = KeyFuture::new(key);
        for _ in rt.forever() {
            match self.poll(room, &mut future) {
                Poll::Ready(got) => return got,
                Poll::Pending => {}
            }
        }
        unreachable!()
    }

    /// One poll of a future over a key: whether the key was got, where it has ended.
    fn poll(&mut self, room: &Solo, future: &mut KeyFuture) -> Poll<bool>
        ensures leads { Z.leads self.old.sink self.new.sink }
    {
        let mut context = room.begin();
        let polled = future.poll(self, &mut context);
        context.end(&polled);
        match polled {
            Poll::Ready(Ok(_)) => Poll::Ready(true),
            Poll::Ready(Err(PollEnd::TaskErred { .. } | PollEnd::Over)) => Poll::Ready(false),
            Poll::Pending => Poll::Pending,
        }
    }

    /// Goes round until the run is over.
    fn go_on<R: Wait>(&mut self, rt: &R)
        ensures leads { Z.leads self.old.sink self.new.sink }
    {
        for _ in rt.forever() {
            if self.round().is_err() {
                return;
            }
        }
        unreachable!()
    }
}

impl<B: Drop, L: Label<Block = B>, D: Drives<Watch<B, L>>, Z: Sink<B, L>> Rounds
    for Waiting<'_, B, L, D, Z> {
    type Block = ();

    ghost use Rattle.std.specs.Prelude.{◌≡◌, true};
    ghost use Rattle.client_futures.specs.Sights.{sight_seen};

    ghost seen = { λ w. sight_seen w.watch.sight };

    ghost leads = { λ v w. ((sight_seen v.watch.sight).over ≡ true → (sight_seen w.watch.sight).over ≡ true) × Z.leads v.sink w.sink };

    ghost here = { λ w. (λ h. h, Z.here w.sink) };

    ghost on = { λ u v w f g. (λ h. g.0 (f.0 h), Z.on u.sink v.sink w.sink f.1 g.1) };

    /// One round of the driver, with its rest, after which a block that it took is handed on. The run is over where the client is served, or a node goes
    /// on no more.
    fn round(&mut self) -> Result<(), RunOver> {
        let before = self.watch.sight.is_over();
        let goes_on = self.driver.go_round(&mut self.watch);
        self.hand_on();
        if before | !goes_on {
            self.watch.sight.note_over();
        }
        if self.watch.sight.is_over() {
            Err(RunOver)
        } else {
            Ok(())
        }
    }

    fn end(&self, key: u32) -> Option<End> {
        self.watch.sight.end(key)
    }

    fn may_err(&self) -> bool {
        self.watch.sight.may_err()
    }

    fn take(&mut self, key: u32) -> Option<Arc<()>> {
        self.watch.sight.take(key)
    }
}

/// What waits for the wanted keys of a run, and where their blocks go, which is away while it waits.
pub struct Waiter<'a, 'b, Z> {
    pub alloc: Global,
    /// How many keys the graph has.
    pub keys: u32,
    pub wanted: &'a [u32],
    /// Where futures are polled, if there is room.
    pub room: Option<&'b Solo>,
    pub sink: Option<Z>,
}

impl<B: Drop, L: Label<Block = B>, Z: Sink<B, L> + Drop> Waits<Watch<B, L>> for Waiter<'_, '_, Z> {
    ghost use Rattle.node_runner.specs.Sinks.{LeadsIn, led-nowhere};

    ghost leads = { λ v w. LeadsIn Z.leads v.sink w.sink };

    ghost here = { λ w. led-nowhere Z.leads Z.here w.sink };

    fn wait<R: Wait, D: Drives<Watch<B, L>>>(&mut self, rt: &R, driver: &mut D) {
        let Some(sink) = self.sink.take() else {
            return;
        };
        let mut waiting = Waiting {
            driver,
            watch: Watch::taking(self.alloc, self.keys),
            sink,
        };
        waiting.wait_for(rt, self.room, self.wanted);
        waiting.go_on(rt);
        let Waiting {
            driver: _,
            watch: _,
            sink,
        } = waiting;
        self.sink = Some(sink);
    }
}
