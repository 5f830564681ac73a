//! The world that starts.
ghost use Rattle.std.specs.Prelude.{◌≡◌, ◌≤◌, IfOk};
ghost use Rattle.cluster_world.specs.declared.state.Course.TheVariants as course;
ghost use Rattle.cluster_world.specs.Begun.{IsBegun};

use crate::state::{Course, State};
use cluster_msgs::GraphShape;
use cluster_nodes::Nodes;
use scheduler_core::Sched;
use std::alloc::{AllocError, Global};

impl<J: Drop, B: Drop, F: Drop> State<J, B, F> {
    /// A world of these parts that has taken no event.
    fn of_parts(
        alloc: Global,
        job: J,
        feed: F,
        clients: u32,
        sched: Sched,
        nodes: Nodes<B>,
    ) -> State<J, B, F>
        ensures job { result.job ≡ job }
        ensures feed { result.feed ≡ feed }
        ensures clients { result.clients ≡ clients }
        ensures sched { result.sched ≡ sched }
        ensures nodes { result.nodes ≡ nodes }
        ensures course { result.course ≡ course.Going }
        ensures events { result.events ≡ 0 }
    {
        State {
            alloc,
            clients,
            course: Course::Going,
            events: 0,
            sched,
            nodes,
            job,
            feed,
        }
    }

    /// No worker has joined, and no client wants anything.
    pub fn begin(
        alloc: Global,
        job: J,
        feed: F,
        shape: GraphShape,
        clients: u32,
        saturation: u32,
        allowed: Option<u32>,
    ) -> Result<State<J, B, F>, AllocError>
        requires clients { clients ≤ 16 }
        requires saturation { (1 ≤ saturation) × (saturation ≤ 1000) }
        ensures { IfOk result (λ s. IsBegun job feed shape clients saturation allowed s) }
    {
        let again = shape.copy()?;
        let sched = Sched::new(alloc, shape, clients, saturation, allowed)?;
        let Ok(nodes) = Nodes::new(alloc, again, clients) else {
            drop(sched);
            return Err(AllocError);
        };
        Ok(State::of_parts(alloc, job, feed, clients, sched, nodes))
    }
}
