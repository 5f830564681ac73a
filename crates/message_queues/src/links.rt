//! Messages that wait on links: a queue per node.
ghost use Rattle.std.specs.Prelude.{◌≡◌, ◌<◌, ◌+◌, ◌-◌, ◌^◌, ◌++◌, ◌∷◌, [], length, drop, min, OnOk, OnErr};
ghost use Rattle.std.specs.Option.{option_copied};
ghost use Rattle.cluster_rules.specs.Derived.{below};
ghost use Rattle.cluster_rules.specs.Enabled.{front as first_of};
ghost use Rattle.cluster_rules.specs.Functions.{put, total};
ghost use Rattle.message_queues.specs.Queues.{waiting};

use std::alloc::{AllocError, Global};
use std::collections::VecDeque;
use std::marker::Model;

/// The messages on one link, in the order in which they were sent.
#[derive(Drop)]
pub struct Queue<T> {
    items: VecDeque<T>,
}

impl<T> Model for Queue<T> {
    ghost use Rattle.std.specs.Prelude.{List};

    ghost Value = { List T };

    ghost view = { λ s. s.items.items };
}

impl<T: Drop> Queue<T> {
    /// No message. It takes no memory until the first `push`.
    pub fn new(alloc: Global) -> Self
        ensures { result ≡ [] }
    {
        Queue {
            items: VecDeque::new(alloc),
        }
    }

    /// How many messages wait.
    pub fn len(&self) -> usize
        ensures { result ≡ length self.now }
    {
        self.items.len()
    }

    /// The message that was sent first, if one waits.
    pub fn front(&self) -> Option<&T>
        ensures { option_copied result ≡ first_of self.now }
    {
        self.items.front()
    }

    /// Sends a message.
    ///
    /// # Errors
    /// Where no memory is left; the queue is then as before, and the message is dropped.
    pub fn push(&mut self, item: T) -> Result<(), AllocError>
        ensures ok { OnOk result (self.new ≡ self.old ++ item ∷ []) }
        ensures err { OnErr result (self.new ≡ self.old) }
    {
        self.items.push_back(item)?;
        Ok(())
    }

    /// Sends these messages, in their order.
    ///
    /// # Errors
    /// Where no memory is left; the queue is then as before, and the messages are dropped.
    pub fn append(&mut self, items: Vec<T>) -> Result<(), AllocError>
        ensures ok { OnOk result (self.new ≡ self.old ++ items.items) }
        ensures err { OnErr result (self.new ≡ self.old) }
    {
        let mut more = VecDeque::from_vec(items);
        self.items.append(&mut more)
    }

    /// Takes the message that was sent first, if one waits.
    pub fn pop(&mut self) -> Option<T>
        ensures item { result ≡ first_of self.old }
        ensures rest { self.new ≡ drop 1 self.old }
    {
        self.items.pop_front()
    }

    /// Drops all messages.
    pub fn clear(&mut self)
        ensures { self.new ≡ [] }
    {
        self.items.clear();
    }
}

/// A queue for each node, by its number from 0, which `waiting` makes a function.
#[derive(Drop)]
pub struct Links<T> {
    alloc: Global,
    queues: Vec<Queue<T>>,
}

impl<T> Model for Links<T> {
    ghost use Rattle.std.specs.Prelude.{List};

    ghost Value = { List (List T) };

    ghost view = { λ s. s.queues.items };
}

impl<T: Drop> Links<T> {
    /// No node.
    pub fn new(alloc: Global) -> Self
        ensures { result ≡ [] }
    {
        Links {
            alloc,
            queues: Vec::new(alloc),
        }
    }

    /// How many nodes there are.
    pub fn nodes(&self) -> usize
        ensures { result ≡ length self.now }
    {
        self.queues.len()
    }

    /// One more node, with no message.
    ///
    /// # Errors
    /// Where no memory is left; all is then as before.
    pub fn add(&mut self) -> Result<(), AllocError>
        ensures ok { OnOk result (self.new ≡ self.old ++ [] ∷ []) }
        ensures meaning { waiting self.new ≡ waiting self.old }
        ensures err { OnErr result (self.new ≡ self.old) }
    {
        self.queues.push(Queue::new(self.alloc))?;
        Ok(())
    }

    /// The message that was sent first to a node, if one waits.
    pub fn front(&self, node: u32) -> Option<&T>
        ensures { option_copied result ≡ first_of (waiting self.now node) }
    {
        if (node as usize) < self.queues.len() {
            self.queues[node as usize].front()
        } else {
            None
        }
    }

    /// How many messages wait at a node.
    pub fn len(&self, node: u32) -> usize
        ensures { result ≡ length (waiting self.now node) }
    {
        if (node as usize) < self.queues.len() {
            self.queues[node as usize].len()
        } else {
            0
        }
    }

    /// Sends a message to a node.
    ///
    /// # Errors
    /// Where no memory is left; all is then as before, and the message is dropped.
    pub fn push(&mut self, node: u32, item: T) -> Result<(), AllocError>
        requires { node < length self.old }
        ensures ok { OnOk result (waiting self.new ≡ put (waiting self.old) node (waiting self.old node ++ item ∷ [])) }
        ensures err { OnErr result (waiting self.new ≡ waiting self.old) }
        ensures length { length self.new ≡ length self.old }
    {
        self.queues[node as usize].push(item)
    }

    /// Sends these messages to a node, in their order.
    ///
    /// # Errors
    /// Where no memory is left; all is then as before, and the messages are dropped.
    pub fn append(&mut self, node: u32, items: Vec<T>) -> Result<(), AllocError>
        requires { node < length self.old }
        ensures ok { OnOk result (waiting self.new ≡ put (waiting self.old) node (waiting self.old node ++ items.items)) }
        ensures err { OnErr result (waiting self.new ≡ waiting self.old) }
        ensures length { length self.new ≡ length self.old }
    {
        self.queues[node as usize].append(items)
    }

    /// Takes the message that was sent first to a node, if one waits.
    pub fn pop(&mut self, node: u32) -> Option<T>
        requires { node < length self.old }
        ensures item { result ≡ first_of (waiting self.old node) }
        ensures rest { waiting self.new ≡ put (waiting self.old) node (drop 1 (waiting self.old node)) }
        ensures length { length self.new ≡ length self.old }
    {
        self.queues[node as usize].pop()
    }

    /// Drops all messages of a node.
    pub fn clear(&mut self, node: u32)
        requires { node < length self.old }
        ensures meaning { waiting self.new ≡ put (waiting self.old) node [] }
        ensures length { length self.new ≡ length self.old }
    {
        self.queues[node as usize].clear();
    }

    /// How many messages wait at all nodes, or 2^64 - 1 where it is more.
    pub fn count(&self) -> u64
        ensures { result ≡ min (total (λ i. length (waiting self.now i)) (below (length self.now))) (2 ^ 64 - 1) }
    {
        let mut total: u64 = 0;
        for node in 0..self.queues.len() {
            total = total.saturating_add(self.queues[node].len() as u64);
        }
        total
    }
}
