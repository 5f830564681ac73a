//! Drivers are made, run, and taken back; then all cells are closed.
ghost use Rattle.std.specs.Prelude.{◌≡◌, ◌+◌, ◌<◌, ◌≤◌, ◌^◌, [], IfOk, IfErr, map, vec_len};
ghost use Rattle.turn_cell.specs.Rows.{berth_of};
ghost use Rattle.driver_rows.specs.Closing.{AreClosed};

use crate::bell::{Bell, Manner};
use crate::driver::{Cluster, Driver, run_drivers};
use crate::turns::{Attends, Schedules, Waits, Works};
use cluster_msgs::Label;
use std::alloc::{AllocError, Global};
use std::marker::Brand;
use std::sync::Wait;
use std::thread::Threads;
use turn_cell::{Home, Kept, Made, Places, Stamps};

/// The passes of all cells from which the drivers' are split.
pub struct Homes<KS, KW, KC, L, S, W, C>
where
    KS: Places<S>,
    KW: Places<W>,
    KC: Places<C>,
    L: Label,
    S: Kept<Block = L::Block>,
    W: Kept<Block = L::Block>,
    C: Kept<Block = L::Block>,
{
    scheduler: Home<KS, S, L>,
    workers: Home<KW, W, L>,
    clients: Home<KC, C, L>,
    parts: u32,
    ghost same: { (scheduler.parts ≡ parts) × (workers.parts ≡ parts) × (clients.parts ≡ parts) },
}

impl<KS, KW, KC, L, S, W, C> Homes<KS, KW, KC, L, S, W, C>
where
    KS: Places<S>,
    KW: Places<W>,
    KC: Places<C>,
    L: Label,
    S: Kept<Block = L::Block>,
    W: Kept<Block = L::Block>,
    C: Kept<Block = L::Block>,
{
    /// A driver with a pass of each cell and these rights to draw.
    fn split(
        self,
        alloc: Global,
        cluster: &Cluster<KS, KW, KC, L, S, W, C>,
        stamps: Stamps,
        home: usize,
    ) -> Result<(Self, Driver<KS, KW, KC, L, S, W, C>), Self>
        requires { 2 ≤ self.parts }
        ensures ok { IfOk result (λ r. r.0.parts + 1 ≡ self.parts) }
        ensures err { IfErr result (λ h. h.parts ≡ self.parts) }
    {
        let Homes {
            scheduler,
            workers,
            clients,
            parts,
        } = self;
        let Ok(ended) = none_ended(alloc, cluster.workers.len()) else {
            return Err(Homes {
                scheduler,
                workers,
                clients,
                parts,
            });
        };
        let (scheduler, first) = match scheduler.split(alloc, &cluster.scheduler) {
            Ok(two) => two,
            Err(scheduler) => {
                return Err(Homes {
                    scheduler,
                    workers,
                    clients,
                    parts,
                });
            }
        };
        let (workers, second) = match workers.split(alloc, &cluster.workers) {
            Ok(two) => two,
            Err(workers) => {
                let scheduler = scheduler.join(&cluster.scheduler, first);
                return Err(Homes {
                    scheduler,
                    workers,
                    clients,
                    parts,
                });
            }
        };
        let (clients, third) = match clients.split(alloc, &cluster.clients) {
            Ok(two) => two,
            Err(clients) => {
                let scheduler = scheduler.join(&cluster.scheduler, first);
                let workers = workers.join(&cluster.workers, second);
                return Err(Homes {
                    scheduler,
                    workers,
                    clients,
                    parts,
                });
            }
        };
        Ok((
            Homes {
                scheduler,
                workers,
                clients,
                parts: parts - 1,
            },
            Driver {
                scheduler: first,
                workers: second,
                clients: third,
                stamps,
                joined: 0,
                ended,
                home,
                served: false,
                over: false,
                missed: false,
                vain: 0,
                dozes: false,
            },
        ))
    }

    /// Takes a driver's passes back.
    fn join(
        self,
        cluster: &Cluster<KS, KW, KC, L, S, W, C>,
        driver: Driver<KS, KW, KC, L, S, W, C>,
    ) -> Self
        requires { self.parts + 1 < 2 ^ 32 }
        ensures { result.parts ≡ self.parts + 1 }
    {
        let Homes {
            scheduler,
            workers,
            clients,
            parts,
        } = self;
        let Driver {
            scheduler: first,
            workers: second,
            clients: third,
            stamps: _,
            joined: _,
            ended: _,
            home: _,
            served: _,
            over: _,
            missed: _,
            vain: _,
            dozes: _,
        } = driver;
        Homes {
            scheduler: scheduler.join(&cluster.scheduler, first),
            workers: workers.join(&cluster.workers, second),
            clients: clients.join(&cluster.clients, third),
            parts: parts + 1,
        }
    }

    /// A driver for each part but one, or fewer where memory ends.
    fn split_all(
        self,
        alloc: Global,
        cluster: &Cluster<KS, KW, KC, L, S, W, C>,
        shares: Vec<Stamps>,
        drivers: &mut Vec<Driver<KS, KW, KC, L, S, W, C>>,
    ) -> Self
        requires some { 1 ≤ self.parts }
        requires empty { drivers.old.items ≡ [] }
        ensures { result.parts + vec_len drivers.new ≡ self.parts }
    {
        let mut homes = self;
        let mut shares = shares;
        while homes.parts > 1 {
            if drivers.reserve(1).is_err() {
                return homes;
            }
            let Some(stamps) = shares.pop() else {
                return homes;
            };
            let home = drivers.len() / cluster.manner.neighbours.max(1) as usize;
            match homes.split(alloc, cluster, stamps, home) {
                Ok((rest, driver)) => {
                    drivers.push_reserved(driver);
                    homes = rest;
                }
                Err(rest) => return rest,
            }
        }
        homes
    }

    /// All drivers' passes back.
    fn join_all(
        self,
        cluster: &Cluster<KS, KW, KC, L, S, W, C>,
        mut drivers: Vec<Driver<KS, KW, KC, L, S, W, C>>,
    ) -> Self
        requires { self.parts + vec_len drivers < 2 ^ 32 }
        ensures { result.parts ≡ self.parts + vec_len drivers }
    {
        let mut homes = self;
        while let Some(driver) = drivers.pop() {
            homes = homes.join(cluster, driver);
        }
        drivers.destroy_empty();
        homes
    }
}

// The rights to draw, for so many drivers, halved in turn; fewer where memory ends.
fn share_out(alloc: Global, stamps: Stamps, count: u32) -> Vec<Stamps> {
    let mut shares = Vec::new(alloc);
    if shares.reserve(1).is_err() {
        return shares;
    }
    shares.push_reserved(stamps);
    let mut at = 0;
    let mut round = 1;
    for _ in 1..count {
        if shares.reserve(1).is_err() {
            return shares;
        }
        let half = match shares.get_mut(at) {
            Some(share) => share.split(),
            None => return shares,
        };
        let Ok(half) = half else {
            return shares;
        };
        shares.push_reserved(half);
        at = at.saturating_add(1);
        if at >= round {
            at = 0;
            round = shares.len();
        }
    }
    shares
}

// No worker is known to have ended.
fn none_ended(alloc: Global, count: usize) -> Result<Vec<bool>, AllocError>
    ensures { IfOk result (λ v. vec_len v ≡ count) }
{
    vec![in alloc; false; count]
}

/// The closed states, row by row.
pub struct Closed<S, W, C> {
    pub scheduler: Vec<S>,
    pub workers: Vec<W>,
    pub clients: Vec<C>,
}

/// Runs the cells to the end by so many drivers as they have parts, less one, and closes them.
fn run_at<R, KS, KW, KC, L, S, W, C, J, T>(
    rt: &R,
    alloc: Global,
    scheduler: Made<S, L>,
    workers: Made<W, L>,
    clients: Made<C, L>,
    stamps: Stamps,
    manner: Manner,
    job: &J,
    waiter: &mut T,
) -> Closed<S, W, C>
where
    R: Threads + Wait + Sync,
    KS: Places<S> + Send + Sync,
    KW: Places<W> + Send + Sync,
    KC: Places<C> + Send + Sync,
    L: Label + Send + Sync,
    S: Kept<Block = L::Block> + Send + Sync,
    W: Kept<Block = L::Block> + Send + Sync,
    C: Kept<Block = L::Block> + Send + Sync,
    J: Schedules<S, L> + Works<W, L> + Attends<C, L> + Sync,
    T: Waits<J::Sight>,
    requires scheduler { (KS.berths ≡ map (λ p. berth_of p.seat) scheduler.passes.items) × (KS.total ≡ scheduler.parts) }
    requires workers { (KW.berths ≡ map (λ p. berth_of p.seat) workers.passes.items) × (KW.total ≡ workers.parts) }
    requires clients { (KC.berths ≡ map (λ p. berth_of p.seat) clients.passes.items) × (KC.total ≡ clients.parts) }
    requires parts { (workers.parts ≡ scheduler.parts) × (clients.parts ≡ scheduler.parts) }
    ensures scheduler { AreClosed S.entries S.core S.cut S.steps (S.fits L.facts) KS.berths result.scheduler.items }
    ensures workers { AreClosed W.entries W.core W.cut W.steps (W.fits L.facts) KW.berths result.workers.items }
    ensures clients { AreClosed C.entries C.core C.cut C.steps (C.fits L.facts) KC.berths result.clients.items }
    ensures waited { T.leads waiter.old waiter.new }
{
    let parts = scheduler.parts;
    let shares = share_out(alloc, stamps, parts.saturating_sub(1));
    let (scheduler, first, one) = scheduler.into_row::<KS>();
    let (workers, second, two) = workers.into_row::<KW>();
    let (clients, third, three) = clients.into_row::<KC>();
    let cluster = Cluster {
        scheduler,
        workers,
        clients,
        bell: Bell::new(),
        manner,
    };
    let homes = Homes {
        scheduler: first,
        workers: second,
        clients: third,
        parts,
    };
    let mut drivers = Vec::new(alloc);
    let homes = homes.split_all(alloc, &cluster, shares, &mut drivers);
    run_drivers(rt, &cluster, drivers.as_mut_slice(), job, waiter);
    let homes = homes.join_all(&cluster, drivers);
    let Cluster {
        scheduler,
        workers,
        clients,
        bell: _,
        manner: _,
    } = cluster;
    let Homes {
        scheduler: first,
        workers: second,
        clients: third,
        parts: _,
    } = homes;
    Closed {
        scheduler: scheduler.close(first, one),
        workers: workers.close(second, two),
        clients: clients.close(third, three),
    }
}

/// Runs the cells to the end, by one driver of which the waiter waits for the clients, and closes them: each state's history leads from the state that
/// its cell was made with.
pub fn run_cells<R, L, S, W, C, J, T>(
    rt: &R,
    alloc: Global,
    scheduler: Made<S, L>,
    workers: Made<W, L>,
    clients: Made<C, L>,
    stamps: Stamps,
    manner: Manner,
    job: &J,
    waiter: &mut T,
) -> Closed<S, W, C>
where
    R: Threads + Wait + Sync,
    L: Label + Send + Sync,
    S: Kept<Block = L::Block> + Send + Sync,
    W: Kept<Block = L::Block> + Send + Sync,
    C: Kept<Block = L::Block> + Send + Sync,
    J: Schedules<S, L> + Works<W, L> + Attends<C, L> + Sync,
    T: Waits<J::Sight>,
    requires parts { (workers.parts ≡ scheduler.parts) × (clients.parts ≡ scheduler.parts) }
    ensures scheduler { AreClosed S.entries S.core S.cut S.steps (S.fits L.facts) (map (λ p. berth_of p.seat) scheduler.passes.items) result.scheduler.items }
    ensures workers { AreClosed W.entries W.core W.cut W.steps (W.fits L.facts) (map (λ p. berth_of p.seat) workers.passes.items) result.workers.items }
    ensures clients { AreClosed C.entries C.core C.cut C.steps (C.fits L.facts) (map (λ p. berth_of p.seat) clients.passes.items) result.clients.items }
    ensures waited { T.leads waiter.old waiter.new }
{
    run_at::<R, Brand, Brand, Brand, L, S, W, C, J, T>(
        rt, alloc, scheduler, workers, clients, stamps, manner, job, waiter,
    )
}
